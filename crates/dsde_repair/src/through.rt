//! The rows of the routes that pass a place.

ghost use Rattle.std.specs.Prelude.{◌≡◌, ◌++◌, map, IfOk, OnOk};
ghost use Rattle.std.specs.List.{flat_map};
ghost use Rattle.dsde_routes_wiring.specs.given.structure.plan_Part_TheVariants as part;
ghost use Rattle.dsde_routes_wiring.specs.Numbers.{numbers_at};
ghost use Rattle.dsde_routes_wiring.specs.Wired.{AreWired};
ghost use Rattle.dsde_routes_wiring.specs.declared.wiring.WiredKid.TheViews.{out-Wiring};
ghost use Rattle.dsde_routes_wiring.specs.Routes.{links_of, own, row_of};
ghost use Rattle.dsde_routes_wiring.specs.Places.{crossed_between, only, through};
ghost use Rattle.dsde_repair_walks.specs.Walks.{beyond, link_at};
ghost use Rattle.dsde_repair.specs.Walks.{kid_routes, between_link, open_around, passing_kids, past_around};

use crate::rows::{crossing_rows, open_ways};
use crate::ways::{open_past, parted_end};
use dsde_lists::Memory;
use dsde_repair_walks::{cross, find_kid};
use dsde_routes_wiring::given::structure::Part;
use dsde_routes_wiring::{Row, Side, Wiring};
use dsde_values::{Name, Seq};
use std::alloc::Global;

/// The numbers of the links with an end on a side at a component.
fn numbers_of(alloc: Global, net: &Wiring, side: Side, name: &Name) -> Result<Seq<usize>, Memory>
    ensures { IfOk result (λ numbers. numbers ≡ numbers_at side (part.Kid name.now) (out-Wiring net.now).links) }
{
    let own = Part::Kid(name.copy(alloc)?);
    net.links.at(alloc, side, &own)
}

/// Adds the rows over the link of a number, if the way before it passes a place beneath a component.
fn out_numbered(
    alloc: Global,
    net: &Wiring,
    whole: bool,
    name: &Name,
    rest: &[Name],
    number: usize,
    rows: &mut Seq<Row>,
) -> Result<(), Memory>
    requires { AreWired net.now }
    ensures { OnOk result (rows.new ≡ rows.old ++ link_at (between_link (only (passing_kids name.now rest.now (out-Wiring net.now).kids)) (open_around whole net.now) (out-Wiring net.now).me) (out-Wiring net.now).links number) }
{
    match net.links.as_slice().get(number) {
        None => Ok(()),
        Some(link) => {
            let passing = parted_end(alloc, true, Side::Out, net, name, rest, &link.from)?;
            if passing.is_empty() {
                return Ok(());
            }
            let afters = open_ways(alloc, Side::Into, net, whole, &link.to)?;
            let onward = afters.as_slice();
            cross(alloc, number, link, passing, onward, rows)
        }
    }
}

/// The same of all links: those that lead from that component serve.
fn out_all(
    alloc: Global,
    net: &Wiring,
    whole: bool,
    name: &Name,
    rest: &[Name],
    rows: &mut Seq<Row>,
) -> Result<(), Memory>
    requires { AreWired net.now }
    ensures { OnOk result (rows.new ≡ rows.old ++ map row_of (flat_map (crossed_between (only (passing_kids name.now rest.now (out-Wiring net.now).kids)) (open_around whole net.now)) (links_of net.now))) }
{
    let found = numbers_of(alloc, net, Side::Into, name)?;
    let numbers = found.as_slice();
    for number in numbers {
        out_numbered(alloc, net, whole, name, rest, *number, rows)?;
    }
    Ok(())
}

/// Adds the rows over the link of a number, if the way before it does not pass that place, and the way after
/// it does.
fn into_numbered(
    alloc: Global,
    net: &Wiring,
    whole: bool,
    name: &Name,
    rest: &[Name],
    number: usize,
    rows: &mut Seq<Row>,
) -> Result<(), Memory>
    requires { AreWired net.now }
    ensures { OnOk result (rows.new ≡ rows.old ++ link_at (between_link (past_around (beyond whole (out-Wiring net.now).me) name.now rest.now net.now) (only (passing_kids name.now rest.now (out-Wiring net.now).kids)) (out-Wiring net.now).me) (out-Wiring net.now).links number) }
{
    match net.links.as_slice().get(number) {
        None => Ok(()),
        Some(link) => {
            let passing = parted_end(alloc, true, Side::Into, net, name, rest, &link.to)?;
            if passing.is_empty() {
                return Ok(());
            }
            let past = open_past(alloc, Side::Out, net, whole, name, rest, &link.from)?;
            let onward = passing.as_slice();
            cross(alloc, number, link, past, onward, rows)
        }
    }
}

/// The same of all links: those that lead to that component serve.
fn into_all(
    alloc: Global,
    net: &Wiring,
    whole: bool,
    name: &Name,
    rest: &[Name],
    rows: &mut Seq<Row>,
) -> Result<(), Memory>
    requires { AreWired net.now }
    ensures { OnOk result (rows.new ≡ rows.old ++ map row_of (flat_map (crossed_between (past_around (beyond whole (out-Wiring net.now).me) name.now rest.now net.now) (only (passing_kids name.now rest.now (out-Wiring net.now).kids))) (links_of net.now))) }
{
    let found = numbers_of(alloc, net, Side::Out, name)?;
    let numbers = found.as_slice();
    for number in numbers {
        into_numbered(alloc, net, whole, name, rest, *number, rows)?;
    }
    Ok(())
}

/// Adds the rows of the routes that use a link of the network at a place.
#[cycle(through)]
pub(crate) fn add_through(
    alloc: Global,
    net: &Wiring,
    whole: bool,
    place: &[Name],
    rows: &mut Seq<Row>,
) -> Result<(), Memory>
    requires { AreWired net.now }
    ensures { OnOk result (rows.new ≡ rows.old ++ map row_of (through (beyond whole (out-Wiring net.now).me) place.now net.now)) }
{
    match place.split_first() {
        None => crossing_rows(alloc, net, whole, rows),
        Some((name, rest)) => {
            out_all(alloc, net, whole, name, rest, rows)?;
            into_all(alloc, net, whole, name, rest, rows)?;
            add_beneath(alloc, net, name, rest, rows)
        }
    }
}

/// Adds those inside the component that leads there.
#[cycle(through)]
fn add_beneath(
    alloc: Global,
    net: &Wiring,
    name: &Name,
    rest: &[Name],
    rows: &mut Seq<Row>,
) -> Result<(), Memory>
    requires { AreWired net.now }
    ensures { OnOk result (rows.new ≡ rows.old ++ map row_of (kid_routes (passing_kids name.now rest.now (out-Wiring net.now).kids))) }
{
    match find_kid(net.kids.as_slice(), name) {
        None => Ok(()),
        Some(kid) => match &kid.below {
            None => Ok(()),
            Some(below) => add_through(alloc, below.get(), false, rest, rows),
        },
    }
}

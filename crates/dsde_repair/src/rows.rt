//! The rows of a network and of all beneath it.

ghost use Rattle.std.specs.Prelude.{◌≡◌, [], ◌∷◌, ◌++◌, map, IfOk, OnOk, MatchOption};
ghost use Rattle.std.specs.List.{AllByRecursion};
ghost use Rattle.dsde_routes_wiring.specs.Wired.{AreWired};
ghost use Rattle.dsde_routes_wiring.specs.declared.wiring.WiredKid.TheViews.{out-Wiring};
ghost use Rattle.dsde_routes_wiring.specs.Routes.{crossing, inner_of_kid, links_of, row_of, routes_in};
ghost use Rattle.dsde_routes_wiring.specs.Places.{inside};
ghost use Rattle.dsde_repair_walks.specs.Places.{IsBelowWired};
ghost use Rattle.dsde_routes_wiring.specs.declared.side.Side.{Side};
ghost use Rattle.dsde_repair_walks.specs.Walks.{beyond, own_way};
ghost use Rattle.dsde_repair.specs.Walks.{at_ways, crossed_link, open_around, IsNoOwn};

use dsde_bank::Handle;
use dsde_lists::Memory;
use dsde_repair_walks::{Way, cross, direct_row, leaf_at, one_way, ways_of_end};
use dsde_routes_wiring::given::structure::{End, Link, Part};
use dsde_routes_wiring::{Row, Side, WiredKid, Wiring};
use dsde_values::Seq;
use std::alloc::Global;

/// What stands at an end, where the network's own ports may be sources and targets.
pub(crate) fn open_ways(
    alloc: Global,
    side: Side,
    net: &Wiring,
    whole: bool,
    end: &End,
) -> Result<Seq<Way>, Memory>
    requires { AreWired net.now }
    ensures { IfOk result (λ ways. ways ≡ at_ways side (open_around whole net.now) end.now) }
{
    match end.part {
        Part::Net => {
            if whole {
                one_way(alloc, net.me, end.port)
            } else {
                Ok(Seq::new(alloc))
            }
        }
        Part::Boss | Part::Kid(_) => ways_of_end(alloc, side, net, end),
    }
}

/// The part that is its own source and target at an end: an executive, an atomic component, or the network
/// where its own ports are sources and targets. None where ways go on there, or none begins. The index of a
/// component is kept in `last`, and looked at first.
fn own_at(net: &Wiring, whole: bool, end: &End, last: &mut usize) -> Option<Handle>
    requires { AreWired net.now }
    ensures { MatchOption result (IsNoOwn whole net.now end.now.part) (λ handle. (side : Side) → at_ways side (open_around whole net.now) end.now ≡ own_way handle end.now.port ∷ []) }
{
    match end.part {
        Part::Net if whole => Some(net.me),
        Part::Net => None,
        Part::Boss | Part::Kid(_) => leaf_at(net, end, last),
    }
}

/// Adds the rows that cross over one link: one where it leads from a part to a part, without a look at ways.
fn cross_link(
    alloc: Global,
    net: &Wiring,
    whole: bool,
    number: usize,
    link: &Link,
    last: &mut usize,
    rows: &mut Seq<Row>,
) -> Result<(), Memory>
    requires { AreWired net.now }
    ensures { OnOk result (rows.new ≡ rows.old ++ crossed_link (open_around whole net.now) (out-Wiring net.now).me (number, link.now)) }
{
    match (
        own_at(net, whole, &link.from, last),
        own_at(net, whole, &link.to, last),
    ) {
        (Some(source), Some(target)) => {
            rows.push(direct_row(alloc, number, link, source, target)?)
        }
        _ => cross_ways(alloc, net, whole, number, link, rows),
    }
}

/// The same of any link.
fn cross_ways(
    alloc: Global,
    net: &Wiring,
    whole: bool,
    number: usize,
    link: &Link,
    rows: &mut Seq<Row>,
) -> Result<(), Memory>
    requires { AreWired net.now }
    ensures { OnOk result (rows.new ≡ rows.old ++ crossed_link (open_around whole net.now) (out-Wiring net.now).me (number, link.now)) }
{
    let befores = open_ways(alloc, Side::Out, net, whole, &link.from)?;
    let afters = open_ways(alloc, Side::Into, net, whole, &link.to)?;
    cross(alloc, number, link, befores, afters.as_slice(), rows)
}

/// Adds the rows that cross over a link of a network.
pub(crate) fn crossing_rows(
    alloc: Global,
    net: &Wiring,
    whole: bool,
    rows: &mut Seq<Row>,
) -> Result<(), Memory>
    requires { AreWired net.now }
    ensures { OnOk result (rows.new ≡ rows.old ++ map row_of (crossing (open_around whole net.now) (links_of net.now))) }
{
    let links = net.links.as_slice();
    let mut last = 0;
    for (number, link) in links.iter().enumerate() {
        cross_link(alloc, net, whole, number, link, &mut last, rows)?;
    }
    Ok(())
}

/// Adds all rows of a network and what is beneath it.
#[cycle(adding)]
pub fn net_rows(alloc: Global, net: &Wiring, whole: bool, rows: &mut Seq<Row>) -> Result<(), Memory>
    requires { AreWired net.now }
    ensures { OnOk result (rows.new ≡ rows.old ++ map row_of (routes_in (beyond whole (out-Wiring net.now).me) net.now)) }
{
    crossing_rows(alloc, net, whole, rows)?;
    add_inside(alloc, net.kids.as_slice(), rows)
}

/// Adds the rows inside components.
#[cycle(adding)]
pub(crate) fn add_inside(
    alloc: Global,
    kids: &[WiredKid],
    rows: &mut Seq<Row>,
) -> Result<(), Memory>
    requires { AllByRecursion IsBelowWired kids.now }
    ensures { OnOk result (rows.new ≡ rows.old ++ map row_of (inside kids.now)) }
{
    for kid in kids {
        add_kid(alloc, kid, rows)?;
    }
    Ok(())
}

/// Adds the rows inside one.
#[cycle(adding)]
pub(crate) fn add_kid(alloc: Global, kid: &WiredKid, rows: &mut Seq<Row>) -> Result<(), Memory>
    requires { IsBelowWired kid.now }
    ensures { OnOk result (rows.new ≡ rows.old ++ map row_of (inner_of_kid kid.now).1.routes) }
{
    match &kid.below {
        None => Ok(()),
        Some(below) => net_rows(alloc, below.get(), false, rows),
    }
}

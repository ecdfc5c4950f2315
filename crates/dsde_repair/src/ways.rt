//! Ways that pass a place, and ways that do not.

ghost use Rattle.std.specs.Prelude.{◌≡◌, [], ◌∷◌, ◌++◌, map, if◌then◌else◌, IfOk, OnOk};
ghost use Rattle.dsde_routes_wiring.specs.Wired.{AreWired};
ghost use Rattle.dsde_routes_wiring.specs.declared.wiring.WiredKid.TheViews.{out-Wiring};
ghost use Rattle.dsde_routes_wiring.specs.Routes.{inner_of, links_of, net_ways};
ghost use Rattle.dsde_routes_wiring.specs.Places.{bared, changed, passing};
ghost use Rattle.dsde_repair_walks.specs.Places.{IsBelowWired};
ghost use Rattle.dsde_repair_walks.specs.Walks.{beyond, kid_ways, link_at, own_way, ranked};
ghost use Rattle.dsde_repair.specs.Walks.{at_ways, over_link, parted_around, parted_kid_ways, parted_ways, past_around};

use dsde_bank::Handle;
use dsde_lists::Memory;
use dsde_repair_walks::{Way, extend_all, find_kid, is_border_end, net_ways, one_way, ways_of_kid};
use dsde_routes_wiring::given::structure::{End, Part};
use dsde_routes_wiring::{Side, WiredKid, Wiring, far, near};
use dsde_values::{Name, Seq};
use std::alloc::Global;

/// The ways of a network that use a link of the network at a place in it.
pub fn passing_ways(
    alloc: Global,
    side: Side,
    net: &Wiring,
    place: &[Name],
    port: u32,
) -> Result<Seq<Way>, Memory>
    requires { AreWired net.now }
    ensures { IfOk result (λ ways. ways ≡ map ranked ((passing place.now net.now).ways side port)) }
{
    parted_ways(alloc, true, side, net, place, port)
}

/// The ways of a network that use no link of the network at a place in it.
pub fn past_ways(
    alloc: Global,
    side: Side,
    net: &Wiring,
    place: &[Name],
    port: u32,
) -> Result<Seq<Way>, Memory>
    requires { AreWired net.now }
    ensures { IfOk result (λ ways. ways ≡ map ranked ((inner_of (changed place.now bared net.now)).ways side port)) }
{
    parted_ways(alloc, false, side, net, place, port)
}

/// The ways of a network that use a link of the network at a place in it, or those that use none.
#[cycle(parted)]
fn parted_ways(
    alloc: Global,
    passes: bool,
    side: Side,
    net: &Wiring,
    place: &[Name],
    port: u32,
) -> Result<Seq<Way>, Memory>
    requires { AreWired net.now }
    ensures { IfOk result (λ ways. ways ≡ parted_ways passes side place.now net.now port) }
{
    match place.split_first() {
        None => ways_here(alloc, passes, side, net, port),
        Some((name, rest)) => parted_above(alloc, passes, side, net, name, rest, port),
    }
}

/// The same of a place beneath a component.
#[cycle(parted)]
fn parted_above(
    alloc: Global,
    passes: bool,
    side: Side,
    net: &Wiring,
    name: &Name,
    rest: &[Name],
    port: u32,
) -> Result<Seq<Way>, Memory>
    requires { AreWired net.now }
    ensures { IfOk result (λ ways. ways ≡ map ranked (net_ways (parted_around passes name.now rest.now net.now) (links_of net.now) side port)) }
{
    let mut ways = Seq::new(alloc);
    let numbers = net.links.at_net(side);
    for number in numbers {
        parted_numbered(
            alloc, passes, side, net, name, rest, port, *number, &mut ways,
        )?;
    }
    Ok(ways)
}

/// Adds those over the link of a number.
#[cycle(parted)]
fn parted_numbered(
    alloc: Global,
    passes: bool,
    side: Side,
    net: &Wiring,
    name: &Name,
    rest: &[Name],
    port: u32,
    number: usize,
    ways: &mut Seq<Way>,
) -> Result<(), Memory>
    requires { AreWired net.now }
    ensures { OnOk result (ways.new ≡ ways.old ++ link_at (over_link side (parted_around passes name.now rest.now net.now) (out-Wiring net.now).me port) (out-Wiring net.now).links number) }
{
    match net.links.as_slice().get(number) {
        None => Ok(()),
        Some(link) => {
            if !is_border_end(port, near(side, link)) {
                return Ok(());
            }
            let more = parted_end(alloc, passes, side, net, name, rest, far(side, link))?;
            extend_all(alloc, side, number, link, more, ways)
        }
    }
}

/// Those of what stands at an end.
#[cycle(parted)]
pub(crate) fn parted_end(
    alloc: Global,
    passes: bool,
    side: Side,
    net: &Wiring,
    name: &Name,
    rest: &[Name],
    end: &End,
) -> Result<Seq<Way>, Memory>
    requires { AreWired net.now }
    ensures { IfOk result (λ ways. ways ≡ at_ways side (parted_around passes name.now rest.now net.now) end.now) }
{
    match &end.part {
        Part::Net => Ok(Seq::new(alloc)),
        Part::Boss => own_ways(alloc, passes, net.boss, end.port),
        Part::Kid(wanted) => match find_kid(net.kids.as_slice(), wanted) {
            None => Ok(Seq::new(alloc)),
            Some(kid) => parted_kid(alloc, passes, side, kid, name, rest, end.port),
        },
    }
}

/// Those of a component.
#[cycle(parted)]
fn parted_kid(
    alloc: Global,
    passes: bool,
    side: Side,
    kid: &WiredKid,
    name: &Name,
    rest: &[Name],
    port: u32,
) -> Result<Seq<Way>, Memory>
    requires { IsBelowWired kid.now }
    ensures { IfOk result (λ ways. ways ≡ parted_kid_ways passes side name.now rest.now kid.now port) }
{
    if kid.name != *name {
        return other_ways(alloc, passes, side, kid, port);
    }
    match &kid.below {
        None => own_ways(alloc, passes, kid.handle, port),
        Some(below) => parted_ways(alloc, passes, side, below.get(), rest, port),
    }
}

/// All ways of the network itself, or none.
fn ways_here(
    alloc: Global,
    passes: bool,
    side: Side,
    net: &Wiring,
    port: u32,
) -> Result<Seq<Way>, Memory>
    requires { AreWired net.now }
    ensures { IfOk result (λ ways. ways ≡ parted_ways passes side [] net.now port) }
{
    if passes {
        net_ways(alloc, side, net, port)
    } else {
        Ok(Seq::new(alloc))
    }
}

/// The one way of a part that is its own source and target: it passes no place.
fn own_ways(alloc: Global, passes: bool, handle: Handle, port: u32) -> Result<Seq<Way>, Memory>
    ensures { IfOk result (λ ways. ways ≡ if passes then [] else own_way handle port ∷ []) }
{
    if passes {
        Ok(Seq::new(alloc))
    } else {
        one_way(alloc, handle, port)
    }
}

/// The ways of a component that does not lead to the place: none passes there.
fn other_ways(
    alloc: Global,
    passes: bool,
    side: Side,
    kid: &WiredKid,
    port: u32,
) -> Result<Seq<Way>, Memory>
    requires { IsBelowWired kid.now }
    ensures { IfOk result (λ ways. ways ≡ if passes then [] else kid_ways side kid.now port) }
{
    if passes {
        Ok(Seq::new(alloc))
    } else {
        ways_of_kid(alloc, side, kid, port)
    }
}

/// Those of what stands at an end, where the network's own ports may be sources and targets.
pub(crate) fn open_past(
    alloc: Global,
    side: Side,
    net: &Wiring,
    whole: bool,
    name: &Name,
    rest: &[Name],
    end: &End,
) -> Result<Seq<Way>, Memory>
    requires { AreWired net.now }
    ensures { IfOk result (λ ways. ways ≡ at_ways side (past_around (beyond whole (out-Wiring net.now).me) name.now rest.now net.now) end.now) }
{
    match end.part {
        Part::Net => {
            if whole {
                one_way(alloc, net.me, end.port)
            } else {
                Ok(Seq::new(alloc))
            }
        }
        Part::Boss | Part::Kid(_) => parted_end(alloc, false, side, net, name, rest, end),
    }
}

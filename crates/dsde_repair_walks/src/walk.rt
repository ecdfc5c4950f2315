//! The ways of parts, by a walk over the links that lead there.

ghost use Rattle.std.specs.Prelude.{ℕ, ◌≡◌, [], ◌∷◌, ◌++◌, map, true, IfOk, OnOk, MatchOption};
ghost use Rattle.dsde_routes_wiring.specs.Routes.{inner_of};
ghost use Rattle.dsde_routes_wiring.specs.Wired.{AreWired};
ghost use Rattle.dsde_repair_walks.specs.Found.{IsNoLeaf, is_net};
ghost use Rattle.dsde_repair_walks.specs.Places.{IsBelowWired};
ghost use Rattle.dsde_routes_wiring.specs.declared.wiring.WiredKid.TheViews.{out-Wiring};
ghost use Rattle.dsde_routes_wiring.specs.declared.side.Side.{Side};
ghost use Rattle.dsde_repair_walks.specs.Walks.{link_at, own_way, ranked, ways_over, ways_at, kid_ways};

use crate::crossing::extend_all;
use crate::ends::is_border_end;
use crate::found::{find_near, index_of};
use crate::way::{Way, one_way};
use dsde_bank::Handle;
use dsde_lists::Memory;
use dsde_routes_wiring::given::structure::{End, Part};
use dsde_routes_wiring::{Side, WiredKid, Wiring, far, near};
use dsde_values::Seq;
use std::alloc::Global;

/// The ways that come out of a network's out port, or go on from its in port.
#[cycle(walking)]
pub fn net_ways(alloc: Global, side: Side, net: &Wiring, port: u32) -> Result<Seq<Way>, Memory>
    requires { AreWired net.now }
    ensures { IfOk result (λ ways. ways ≡ map ranked ((inner_of net.now).ways side port)) }
{
    let mut ways = Seq::new(alloc);
    let numbers = net.links.at_net(side);
    for number in numbers {
        ways_numbered(alloc, side, net, port, *number, &mut ways)?;
    }
    Ok(ways)
}

/// Adds those over the link of a number.
#[cycle(walking)]
fn ways_numbered(
    alloc: Global,
    side: Side,
    net: &Wiring,
    port: u32,
    number: usize,
    ways: &mut Seq<Way>,
) -> Result<(), Memory>
    requires { AreWired net.now }
    ensures { OnOk result (ways.new ≡ ways.old ++ link_at (ways_over side net.now port) (out-Wiring net.now).links number) }
{
    match net.links.as_slice().get(number) {
        None => Ok(()),
        Some(link) => {
            if !is_border_end(port, near(side, link)) {
                return Ok(());
            }
            let more = ways_of_end(alloc, side, net, far(side, link))?;
            extend_all(alloc, side, number, link, more, ways)
        }
    }
}

/// The ways of what stands at an end.
#[cycle(walking)]
pub fn ways_of_end(alloc: Global, side: Side, net: &Wiring, end: &End) -> Result<Seq<Way>, Memory>
    requires { AreWired net.now }
    ensures { IfOk result (λ ways. ways ≡ ways_at side net.now end.now) }
{
    match &end.part {
        Part::Net => Ok(Seq::new(alloc)),
        Part::Boss => one_way(alloc, net.boss, end.port),
        Part::Kid(name) => match index_of(net.kids.as_slice(), name) {
            None => Ok(Seq::new(alloc)),
            Some(index) => match net.kids.get(index) {
                None => Ok(Seq::new(alloc)),
                Some(kid) => ways_of_kid(alloc, side, kid, end.port),
            },
        },
    }
}

/// The ways of a component.
#[cycle(walking)]
pub fn ways_of_kid(alloc: Global, side: Side, kid: &WiredKid, port: u32) -> Result<Seq<Way>, Memory>
    requires { IsBelowWired kid.now }
    ensures { IfOk result (λ ways. ways ≡ kid_ways side kid.now port) }
{
    match &kid.below {
        None => one_way(alloc, kid.handle, port),
        Some(below) => net_ways(alloc, side, below.get(), port),
    }
}

/// The component itself, where it is atomic: then its one way is its own. None where it is a network.
fn leaf_of(kid: &WiredKid) -> Option<Handle>
    ensures { MatchOption result (is_net kid.now ≡ true) (λ handle. (side : Side) (port : ℕ) → kid_ways side kid.now port ≡ own_way handle port ∷ []) }
{
    match &kid.below {
        None => Some(kid.handle),
        Some(_) => None,
    }
}

/// The part at an end, where it is an executive or an atomic component: then its one way is its own. None
/// where it is the network itself, a network in it, or no component. The index of a component is kept in
/// `last`, and looked at first.
pub fn leaf_at(net: &Wiring, end: &End, last: &mut usize) -> Option<Handle>
    requires { AreWired net.now }
    ensures { MatchOption result (IsNoLeaf net.now end.now.part) (λ handle. (side : Side) → ways_at side net.now end.now ≡ own_way handle end.now.port ∷ []) }
{
    match &end.part {
        Part::Net => None,
        Part::Boss => Some(net.boss),
        Part::Kid(name) => match find_near(net.kids.as_slice(), last, name) {
            None => None,
            Some(kid) => leaf_of(kid),
        },
    }
}

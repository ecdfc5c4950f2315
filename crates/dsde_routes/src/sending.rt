//! The ways that the networks of a wiring send.

ghost use Rattle.std.specs.Prelude.{◌≡◌, ◌++◌, ℕ, [], IfOk, OnOk, if◌then◌else◌, map};
ghost use Rattle.dsde_routes_wiring.specs.given.structure.Gather.{is_part};
ghost use Rattle.dsde_routes_wiring.specs.given.structure.plan_Part_TheVariants as part;
ghost use Rattle.dsde_routes_wiring.specs.Ways.{nowhere};
ghost use Rattle.dsde_routes_wiring.specs.Flatten.{flow, flow_of_kid, ways_at};
ghost use Rattle.dsde_routes.specs.Passing.{carry, from_parts, passing, ways_in, ways_of};
ghost use Rattle.dsde_routes.specs.Putting.{out_passing};
ghost use Rattle.dsde_routes.specs.Sending.{Sends};

use crate::carry::{Come, carry};
use crate::ports::SentWays;
use crate::sent::{Sent, Sents};
use dsde_bank::Handle;
use dsde_lists::Memory;
use dsde_routes_wiring::given::structure::{Link, Part};
use dsde_routes_wiring::{Passing, WiredKid, Wiring};
use dsde_values::Seq;
use std::alloc::Global;

/// Adds the ways over the link of this number, if it leads to the network's own out ports.
fn carry_out(
    alloc: Global,
    number: usize,
    link: &Link,
    boss: Handle,
    kids: &Sents,
    ways: &mut Seq<Passing>,
) -> Result<(), Memory>
    ensures { OnOk result (ways.new ≡ ways.old ++ (if is_part link.now.to.part part.Net then carry (from_parts nowhere boss kids.now) number link.now else [])) }
{
    match &link.to.part {
        Part::Net => carry(alloc, number, link, Come::Nowhere, boss, kids, ways),
        _ => Ok(()),
    }
}

/// The ways that the links of a network carry to its own out ports.
fn to_net(alloc: Global, links: &[Link], boss: Handle, kids: &Sents) -> Result<Seq<Passing>, Memory>
    ensures { IfOk result (λ list. list ≡ passing (from_parts nowhere boss kids.now) 0 links.now part.Net) }
{
    let mut ways = Seq::new(alloc);
    for (number, link) in links.iter().enumerate() {
        carry_out(alloc, number, link, boss, kids, &mut ways)?;
    }
    Ok(ways)
}

/// The ways that a network sends, at its out ports.
#[cycle(sending)]
pub fn outs(alloc: Global, net: &Wiring) -> Result<Seq<Passing>, Memory>
    ensures list { IfOk result (λ list. list ≡ out_passing net.now) }
    ensures ports { IfOk result (λ list. (port : ℕ) → ways_in list port ≡ ways_at (flow net.now).out port) }
{
    let kids = sents(alloc, net.kids.as_slice())?;
    to_net(alloc, net.links.as_slice(), net.boss, &kids)
}

/// What the components of a network send.
#[cycle(sending)]
pub fn sents(alloc: Global, kids: &[WiredKid]) -> Result<Sents, Memory>
    ensures { IfOk result (λ sents. Sends sents (map flow_of_kid kids.now)) }
{
    let mut sents = Sents::new(alloc);
    for kid in kids {
        let sent = sent_by(alloc, kid)?;
        sents.add(alloc, &kid.name, sent)?;
    }
    Ok(sents)
}

/// What a component sends.
#[cycle(sending)]
fn sent_by(alloc: Global, kid: &WiredKid) -> Result<Sent, Memory>
    ensures { IfOk result (λ sent. (port : ℕ) → ways_of sent port ≡ (flow_of_kid kid.now).sent.ways port) }
{
    match &kid.below {
        None => Ok(Sent::Leaf(kid.handle)),
        Some(below) => {
            let list = outs(alloc, below.get())?;
            Ok(Sent::Net(SentWays::of(alloc, list)?))
        }
    }
}

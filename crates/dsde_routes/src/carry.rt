//! The ways that links carry in a network.

ghost use Rattle.std.specs.Prelude.{◌≡◌, ◌++◌, OnOk};
ghost use Rattle.dsde_routes.specs.Passing.{carry, come_of, from_parts};

use crate::ports::GotWays;
use crate::sent::{Sent, Sents};
use crate::ways::{begin_over, go_over};
use dsde_bank::Handle;
use dsde_lists::Memory;
use dsde_routes_wiring::Passing;
use dsde_routes_wiring::given::structure::{Link, Part};
use dsde_values::Seq;
use std::alloc::Global;

/// The ways that come to a network.
#[derive(Clone, Copy)]
pub enum Come<'w> {
    /// None.
    Nowhere,
    /// Those that begin at the root's own in ports.
    Root(Handle),
    /// Those that end at its in ports.
    Ways(&'w GotWays<'w>),
}

/// Adds the ways over the link of this number.
pub fn carry(
    alloc: Global,
    number: usize,
    link: &Link,
    come: Come<'_>,
    boss: Handle,
    kids: &Sents,
    ways: &mut Seq<Passing>,
) -> Result<(), Memory>
    ensures { OnOk result (ways.new ≡ ways.old ++ carry (from_parts (come_of come.entry) boss kids.now) number link.now) }
{
    match &link.from.part {
        Part::Net => match come {
            Come::Nowhere => Ok(()),
            Come::Root(handle) => begin_over(alloc, number, link, handle, ways),
            Come::Ways(got) => go_over(
                alloc,
                number,
                link,
                got.as_slice(),
                got.at(link.from.port),
                ways,
            ),
        },
        Part::Boss => begin_over(alloc, number, link, boss, ways),
        Part::Kid(name) => match kids.find(name) {
            None => Ok(()),
            Some(Sent::Leaf(handle)) => begin_over(alloc, number, link, *handle, ways),
            Some(Sent::Net(sent)) => go_over(
                alloc,
                number,
                link,
                sent.as_slice(),
                sent.at(link.from.port),
                ways,
            ),
        },
    }
}

//! What came to a target leaves its inbox.

ghost use Rattle.std.specs.Prelude.{◌≡◌, map, slice_get, IfSome, MatchOption};
ghost use Rattle.dsde_sim_working.specs.given.sim_gathering.Boxes.{changed};
ghost use Rattle.dsde_core_parcels.specs.Brought.{Rise};
ghost use Rattle.dsde_core_parcels.specs.Calling.{emptied, gets_for, without_gets, AreOthers, IsFor};

use dsde_bank::Handle;
use dsde_core_parcels::{Get, Inbox};
use dsde_values::Seq;
use std::alloc::Global;
use std::mem::replace;

/// The index of the inbox of a target, if it has one.
fn place_of(inboxes: &[Inbox], target: Handle) -> Option<usize>
    requires { Rise inboxes.now }
    ensures { MatchOption result (AreOthers target inboxes.now) (IsFor target inboxes.now) }
{
    match inboxes.binary_search_by(|inbox| inbox.target.birth.cmp(&target.birth)) {
        Ok(index) => {
            if inboxes[index].target.slot == target.slot {
                Some(index)
            } else {
                None
            }
        }
        Err(_) => None,
    }
}

/// What is in the inbox at an index, which is empty then.
fn taken_at(alloc: Global, inboxes: &mut Seq<Inbox>, index: usize) -> Seq<Get>
    ensures gets { IfSome (slice_get inboxes.old index) (λ inbox. result ≡ inbox.gets) }
    ensures left { inboxes.new ≡ changed index without_gets inboxes.old }
{
    match inboxes.get_mut(index) {
        Some(inbox) => replace(&mut inbox.gets, Seq::new(alloc)),
        None => Seq::new(alloc),
    }
}

/// Takes what came to a target out of its inbox, which is found by the birth of its target: the births of
/// targets rise. Gives nothing where nothing came.
pub fn take_gets(alloc: Global, inboxes: &mut Seq<Inbox>, target: Handle) -> Seq<Get>
    requires { Rise inboxes.old }
    ensures gets { result ≡ gets_for target inboxes.old }
    ensures left { inboxes.new ≡ map (emptied target) inboxes.old }
    ensures rise { Rise inboxes.new }
{
    match place_of(inboxes.as_slice(), target) {
        Some(index) => taken_at(alloc, inboxes, index),
        None => Seq::new(alloc),
    }
}

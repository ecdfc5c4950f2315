//! A schedule: pairs of a time and a handle, the least first.

ghost use Rattle.std.specs.Prelude.{◌≡◌, ◌≢◌, ◌+◌, ◌<◌, ◌≤◌, [], ◌++◌, length, map, filter, All, AllPairs, IfSome, MatchOption, OnOk};
ghost use Rattle.std.specs.Option.{option_map};
ghost use Rattle.std.specs.List.{dedup};
ghost use Rattle.dsde_queue.specs.Queue.{put, IsOrdered, first_of, due_of, later_than_due, handles, time_of, TakesFirst, IsNotFirst, is_same, Admits};

use crate::heap;
use dsde_bank::{Batch, Handle};
use dsde_lists::Memory;
use std::alloc::Global;
use std::marker::Model;

/// Pairs of a time and a handle, in the order of time, then of birth. A pair may stand more than
/// once.
#[derive(Drop)]
pub struct Queue {
    // A heap, in which no pair comes before its parent.
    pairs: Vec<(u64, Handle)>,
}

impl Model for Queue {
    ghost use Rattle.std.specs.Prelude.{◌-◌, vec_len, vec_capacity};
    ghost use Rattle.dsde_queue.specs.Queue.{Queue as Schedule, in_order};
    ghost use Rattle.dsde_queue.specs.Heap.{IsHeap};

    ghost Value = { Schedule };

    ghost view = { λ queue. record {
      pairs = in_order queue.pairs.items;
      spare = vec_capacity queue.pairs - vec_len queue.pairs;
    } };

    ghost invariant = { λ queue. IsHeap queue.pairs.items };
}

impl Queue {
    /// The empty queue, which takes no memory yet.
    pub fn new(alloc: Global) -> Queue
        ensures { result.pairs ≡ [] }
    {
        Queue {
            pairs: Vec::new(alloc),
        }
    }

    /// How many pairs there are.
    pub fn len(&self) -> usize
        ensures count { result ≡ length self.now.pairs }
        ensures due { length (due_of self.now.pairs) ≤ result }
        ensures ordered { IsOrdered self.now.pairs }
    {
        self.pairs.len()
    }

    /// Makes room for `count` more pairs. Without memory the queue stays as it was.
    pub fn reserve(&mut self, count: usize) -> Result<(), Memory>
        ensures room { OnOk result (count ≤ self.new.spare) }
        ensures kept { self.new.pairs ≡ self.old.pairs }
        ensures not_less { self.old.spare ≤ self.new.spare }
    {
        self.pairs.reserve(count)?;
        Ok(())
    }

    /// Adds a pair in its place.
    pub fn put_reserved(&mut self, time: u64, handle: Handle)
        requires room { 0 < self.old.spare }
        ensures pairs { self.new.pairs ≡ put (time, handle) self.old.pairs }
        ensures ordered { IsOrdered self.new.pairs }
        ensures spare { self.new.spare + 1 ≡ self.old.spare }
    {
        let at = self.pairs.len();
        self.pairs.push_reserved((time, handle));
        heap::rise(&mut self.pairs, at);
    }

    /// The first pair; `None` exactly where the queue is empty.
    pub fn least(&self) -> Option<(u64, Handle)>
        ensures first { result ≡ first_of self.now.pairs }
        ensures ordered { IsOrdered self.now.pairs }
    {
        self.pairs.first().copied()
    }

    /// Takes out the first pair; `None` exactly where the queue is empty.
    pub fn take_first(&mut self) -> Option<(u64, Handle)>
        ensures taken { MatchOption result ((self.old.pairs ≡ []) × (self.new ≡ self.old)) (TakesFirst self.old self.new) }
        ensures ordered { IsOrdered self.old.pairs }
        ensures left { IsOrdered self.new.pairs }
    {
        if self.pairs.is_empty() {
            return None;
        }
        let first = self.pairs.swap_remove(0);
        heap::sink(&mut self.pairs);
        Some(first)
    }

    /// Takes out all pairs of the least time and adds their handles to `due`, in their order.
    /// Answers that time; `None` exactly where the queue is empty.
    pub fn take_least(&mut self, due: &mut Batch<Handle>) -> Option<u64>
        requires room { length (due_of self.old.pairs) ≤ due.old.spare }
        ensures time { result ≡ option_map time_of (first_of self.old.pairs) }
        ensures taken { self.new.pairs ≡ later_than_due self.old.pairs }
        ensures ordered { IsOrdered self.old.pairs }
        ensures left { IsOrdered self.new.pairs }
        ensures later { IfSome result (λ time. All (λ pair. time < pair.0) self.new.pairs) }
        ensures room { self.new.spare ≡ self.old.spare + length (due_of self.old.pairs) }
        ensures due { due.new.items ≡ due.old.items ++ handles (due_of self.old.pairs) }
        ensures due_room { due.new.spare + length (due_of self.old.pairs) ≡ due.old.spare }
    {
        let (time, _) = self.least()?;
        while let Some(handle) = self.take_at(time) {
            due.push_reserved(handle);
        }
        Some(time)
    }

    /// Keeps exactly the pairs that `keep` admits, each of them once.
    pub fn compact<F: Fn(u64, Handle) -> bool>(&mut self, keep: &F)
        requires { F.IsAlwaysCallable keep.now }
        ensures kept { (test : _) → Admits (F.post keep.now) test → self.new.pairs ≡ dedup is_same (filter test self.old.pairs) }
        ensures ordered { IsOrdered self.new.pairs }
        ensures once { AllPairs (λ pair other. pair ≢ other) self.new.pairs }
        ensures room { self.new.spare + length self.new.pairs ≡ self.old.spare + length self.old.pairs }
    {
        self.pairs.sort_unstable();
        self.pairs.retain(|pair| keep(pair.0, pair.1));
        self.pairs.dedup();
    }

    /// Takes out the first pair if it is of this time.
    fn take_at(&mut self, time: u64) -> Option<Handle>
        ensures taken { MatchOption result (IsNotFirst time self.old.pairs × (self.new ≡ self.old)) (λ handle. TakesFirst self.old self.new (time, handle)) }
        ensures ordered { IsOrdered self.old.pairs }
    {
        match self.least() {
            Some((first, _)) if first == time => self.take_first().map(|pair| pair.1),
            _ => None,
        }
    }
}

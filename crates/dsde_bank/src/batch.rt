//! A list with reserved room.

ghost use Rattle.std.specs.Prelude.{◌≡◌, ◌+◌, ◌-◌, ◌<◌, ◌≤◌, [], ◌∷◌, ◌++◌, length, MatchOption, OnOk};
ghost use Rattle.dsde_bank.specs.Batch.{TakesLast};

use dsde_lists::Memory;
use std::alloc::Global;
use std::marker::Model;

/// A list with reserved room: what is added goes into room that was made before, so that adding
/// cannot fail.
#[derive(Drop)]
pub struct Batch<T> {
    items: Vec<T>,
}

impl<T> Model for Batch<T> {
    ghost use Rattle.std.specs.Prelude.{◌-◌, vec_len, vec_capacity};
    ghost use Rattle.dsde_bank.specs.Batch.{Batch as Items, batch_code};

    ghost Value = { Items T };

    ghost coded = { batch_code T.code };

    ghost view = { λ batch. record {
      items = batch.items.items;
      spare = vec_capacity batch.items - vec_len batch.items;
    } };
}

impl<T> Batch<T> {
    /// The empty list, which takes no memory yet.
    pub fn new(alloc: Global) -> Batch<T>
        ensures { result.items ≡ [] }
    {
        Batch {
            items: Vec::new(alloc),
        }
    }

    /// Makes room for `count` more items. Without memory the list stays as it was.
    pub fn reserve(&mut self, count: usize) -> Result<(), Memory>
        ensures room { OnOk result (count ≤ self.new.spare) }
        ensures kept { self.new.items ≡ self.old.items }
        ensures not_less { self.old.spare ≤ self.new.spare }
    {
        self.items.reserve(count)?;
        Ok(())
    }

    /// Adds an item at the end.
    pub fn push_reserved(&mut self, item: T)
        requires room { 0 < self.old.spare }
        ensures items { self.new.items ≡ self.old.items ++ item ∷ [] }
        ensures spare { self.new.spare + 1 ≡ self.old.spare }
    {
        self.items.push_reserved(item);
    }

    /// Takes out the last item; `None` exactly where the list is empty.
    pub fn pop(&mut self) -> Option<T>
        ensures { MatchOption result ((self.old.items ≡ []) × (self.new ≡ self.old)) (TakesLast self.old self.new) }
    {
        self.items.pop()
    }

    /// The items, in the order in which they were added.
    pub fn as_slice(&self) -> &[T]
        ensures { result.now ≡ self.now.items }
    {
        self.items.as_slice()
    }
}

impl<T: Drop> Batch<T> {
    /// Drops every item, and keeps the room.
    pub fn clear(&mut self)
        ensures items { self.new.items ≡ [] }
        ensures spare { self.new.spare ≡ self.old.spare + length self.old.items }
    {
        self.items.clear();
    }
}

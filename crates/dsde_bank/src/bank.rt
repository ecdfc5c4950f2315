//! Values under handles that are never given twice.

ghost use Rattle.std.specs.Prelude.{◌≡◌, ◌==◌, ◌+◌, ◌-◌, ◌*◌, ◌^◌, ◌<◌, ◌≤◌, OnOk, OnSome, is_some, if◌then◌else◌, IsSome};
ghost use Rattle.std.specs.Option.{option_copied, option_copied_mut};
ghost use Rattle.std.specs.FinMap as map;
ghost use Rattle.std.specs.Borrow.{Lends, LendsIf, sem};
ghost use Rattle.dsde_bank.specs.Bank.{found, with_value, without, IsGone};
ghost use Rattle.dsde_bank.specs.declared.handle.Handle.{Handle};
ghost use Rattle.dsde_bank.specs.contracts.bank.Bank.{the_row};

use crate::Handle;
use dsde_base::Steps;
use dsde_lists::Memory;
use slab::Slab;
use std::alloc::Global;
use std::marker::Model;
use std::sync::ledger::Ledger;

/// Values under handles. A handle whose value was taken out finds nothing ever again, whatever is
/// put into its slot later.
#[derive(Drop)]
pub struct Bank<T> {
    slots: Slab<Entry<T>>,
    // The birth of the next value.
    born: u64,
}

#[derive(Drop)]
struct Entry<T> {
    birth: u64,
    value: T,
}

impl<T> Model for Bank<T> {
    ghost use Rattle.dsde_bank.specs.Bank.{Bank as Held, bank_code};

    ghost Value = { Held T };

    ghost coded = { bank_code T.code };

    ghost use Rattle.dsde_bank.specs.Slots.{bank_of, IsSound};

    ghost view = { λ bank. bank_of bank.slots bank.born };

    ghost invariant = { λ bank. IsSound bank.slots bank.born };
}

impl<T> Entry<T> {
    ghost use Rattle.dsde_bank.specs.Slots.{LendsValue};

    /// The value, if this is its birth.
    fn value_if_born(&self, birth: u64) -> Option<&T>
        ensures { option_copied result ≡ (if self.now.birth == birth then Some self.now.value else None) }
    {
        if self.birth == birth {
            Some(&self.value)
        } else {
            None
        }
    }

    /// The value, to be changed.
    fn value_mut(&mut self) -> &mut T
        ensures* writes_back { sem 𝓛 (LendsValue T.row self.entry result) }
        ensures value { result.now ≡ self.old.value }
    {
        &mut self.value
    }
}

impl<T> Bank<T> {
    /// An empty bank, which takes no memory yet. Its first value has birth 0.
    pub fn new(alloc: Global) -> Bank<T>
        ensures empty { result.held ≡ map.empty }
        ensures first { result.next_birth ≡ 0 }
    {
        Bank {
            slots: Slab::new(alloc),
            born: 0,
        }
    }

    /// Makes room for `count` more values. Without memory the bank stays as it was.
    pub fn reserve(&mut self, count: usize) -> Result<(), Memory>
        ensures room { OnOk result (count ≤ self.new.spare) }
        ensures kept { self.new ≡ record self.old { spare = self.new.spare } }
        ensures not_less { self.old.spare ≤ self.new.spare }
    {
        self.slots.reserve(count)?;
        Ok(())
    }

    /// The birth of the next value.
    pub fn born(&self) -> u64
        ensures { result ≡ self.now.next_birth }
    {
        self.born
    }

    /// How many values the bank holds.
    pub fn len(&self) -> usize
        ensures { result ≡ map.len self.now.held }
    {
        self.slots.len()
    }

    /// Puts a value in, under a handle that was never given before. Counts one look.
    pub fn insert_reserved<L: Ledger>(&mut self, value: T, looks: &mut Steps<L>) -> Handle
        requires room { 0 < self.old.spare }
        requires births { self.old.next_birth + 1 < 2 ^ 64 }
        ensures birth { result.birth ≡ self.old.next_birth }
        ensures held { self.new.held ≡ map.insert self.old.held result.birth (result.slot, value) }
        ensures next { self.new.next_birth ≡ self.old.next_birth + 1 }
        ensures spare { self.new.spare + 1 ≡ self.old.spare }
        ensures gone { (handle : Handle) → IsGone self.old handle → IsGone self.new handle }
        ensures ticks { looks.new ≡ looks.old + 1 }
    {
        looks.tick();
        let birth = self.born;
        let slot = self.slots.insert_reserved(Entry { birth, value });
        self.born = birth + 1;
        Handle { slot, birth }
    }

    /// The value under a handle; `None` exactly where the bank holds none of that slot and birth.
    /// Counts one look.
    pub fn get<L: Ledger>(&self, handle: Handle, looks: &mut Steps<L>) -> Option<&T>
        ensures value { option_copied result ≡ found self.now handle }
        ensures ticks { looks.new ≡ looks.old + 1 }
    {
        looks.tick();
        match self.slots.get(handle.slot) {
            Some(entry) => entry.value_if_born(handle.birth),
            None => None,
        }
    }

    /// The value under a handle, to be changed; `None` exactly as for `get`. Counts one look.
    pub fn get_mut<L: Ledger>(&mut self, handle: Handle, looks: &mut Steps<L>) -> Option<&mut T>
        ensures* writes_back { sem 𝓛 (LendsIf (the_row T.row) T.row self.entry result (with_value self.old handle) self.old) }
        ensures value { option_copied_mut result ≡ found self.old handle }
        ensures ticks { looks.new ≡ looks.old + 1 }
    {
        looks.tick();
        if self.holds(handle) {
            Some(self.value_mut(handle))
        } else {
            None
        }
    }

    /// Takes out the value under a handle; `None` exactly as for `get`. Counts one look.
    pub fn take<L: Ledger>(&mut self, handle: Handle, looks: &mut Steps<L>) -> Option<T>
        ensures value { result ≡ found self.old handle }
        ensures left { self.new ≡ (if is_some result then without self.old handle else self.old) }
        ensures gone { OnSome result (IsGone self.new handle) }
        ensures stay_gone { (other : Handle) → IsGone self.old other → IsGone self.new other }
        ensures ticks { looks.new ≡ looks.old + 1 }
    {
        looks.tick();
        if !self.holds(handle) {
            return None;
        }
        let entry = self.slots.remove(handle.slot);
        Some(entry.value)
    }

    /// Whether the bank holds a value of that slot and birth.
    fn holds(&self, handle: Handle) -> bool
        ensures { result ≡ is_some (found self.now handle) }
    {
        match self.slots.get(handle.slot) {
            Some(entry) => entry.birth == handle.birth,
            None => false,
        }
    }

    fn value_mut(&mut self, handle: Handle) -> &mut T
        requires { IsSome (found self.old handle) }
        ensures* writes_back { sem 𝓛 (Lends (the_row T.row) T.row self.entry result (with_value self.old handle)) }
        ensures value { found self.old handle ≡ Some result.now }
    {
        let entry = &mut self.slots[handle.slot];
        entry.value_mut()
    }
}

//! A shelf in memory.

ghost use Rattle.std.specs.Prelude.{◌≡◌, ◌≢◌, ◌<◌, ◌≤◌, ◌↔◌, ℕ, List, Some, length, IfOk, OnOk, OnErr, IsSomeAnd, IsErrOf};
ghost use Rattle.dsde_io.specs.Fault.{Rose, one_more};
ghost use Rattle.dsde_io.specs.Calls.{no_calls, NextFails, after_call, after_fault};
ghost use Rattle.dsde_io.specs.Stored.{bytes_under, with_bytes, AreDistinct};

use crate::calls::Calls;
use crate::entries::{copy_of, put};
use crate::{Shelf, ShelfEnd, Stored};
use dsde_values::{Seq, Text};
use std::alloc::Global;
use std::marker::Model;

/// A shelf in memory, some of whose calls fail.
#[derive(Drop)]
pub struct MemoryShelf {
    contents: Seq<Stored>,
    calls: Calls,
}

impl Model for MemoryShelf {
    ghost use Rattle.dsde_io.specs.MemoryShelf.{MemoryShelfState};
    ghost use Rattle.dsde_io.specs.Stored.{AreDistinct};

    ghost Value = { MemoryShelfState };

    ghost view = { λ shelf. record { contents = shelf.contents; calls = shelf.calls } };

    ghost invariant = { λ shelf. AreDistinct shelf.contents };
}

impl MemoryShelf {
    /// A shelf of these bytes, no two under one name. The calls of the numbers in `failing`,
    /// counted from 1 over loads and stores, fail.
    pub fn new(contents: Seq<Stored>, failing: Seq<u64>) -> MemoryShelf
        requires { AreDistinct contents }
        ensures { result ≡ record { contents = contents; calls = no_calls failing } }
    {
        MemoryShelf {
            contents,
            calls: Calls::new(failing),
        }
    }

    /// How many loads and stores there were, up to 2^64 - 1.
    pub fn calls(&self) -> u64
        ensures { result ≡ self.now.calls.made }
    {
        self.calls.made()
    }

    /// What the shelf holds, no two under one name.
    pub fn contents(&self) -> &Seq<Stored>
        ensures value { result.now ≡ self.now.contents }
        ensures distinct { AreDistinct result.now }
    {
        &self.contents
    }
}

impl Shelf for MemoryShelf {
    ghost held = { λ shelf. Some (bytes_under shelf.contents) };

    ghost faults = { λ shelf. shelf.calls.faults };

    fn load(&mut self, alloc: Global, name: &str, limit: u64) -> Result<Text, ShelfEnd>
        ensures told { IfOk result (λ bytes. bytes_under self.old.contents name.now ≡ Some bytes) }
        ensures within { IfOk result (λ bytes. length bytes ≤ limit) }
        ensures absent { IsErrOf result ShelfEnd.Absent
            → bytes_under self.old.contents name.now ≡ None }
        ensures too_long { IsErrOf result ShelfEnd.TooLong
            → IsSomeAnd (bytes_under self.old.contents name.now) (λ bytes. limit < length bytes) }
        ensures cause { IsErrOf result ShelfEnd.Failed
            → Rose self.old.calls.faults self.new.calls.faults }
        ensures counted { self.old.calls.faults ≤ self.new.calls.faults }

        ensures fails { IsErrOf result ShelfEnd.Failed ↔ NextFails self.old.calls }
        ensures calls { result ≢ Err ShelfEnd.Failed → self.new.calls ≡ after_call self.old.calls }
        ensures fault { IsErrOf result ShelfEnd.Failed
            → self.new.calls ≡ after_fault self.old.calls }
        ensures kept { self.new.contents ≡ self.old.contents }
    {
        if self.calls.next_fails() {
            return Err(ShelfEnd::Failed);
        }
        copy_of(alloc, self.contents.as_slice(), name.as_bytes(), limit)
    }

    fn store(&mut self, alloc: Global, name: &str, bytes: &[u8]) -> Result<(), ShelfEnd>
        ensures stored { OnOk result (bytes_under self.new.contents name.now ≡ Some bytes.now) }
        ensures others { (other : List ℕ) → other ≢ name.now
            → bytes_under self.new.contents other ≡ bytes_under self.old.contents other }
        ensures not_absent { result ≢ Err ShelfEnd.Absent }
        ensures not_too_long { result ≢ Err ShelfEnd.TooLong }
        ensures cause { IsErrOf result ShelfEnd.Failed
            → Rose self.old.calls.faults self.new.calls.faults }
        ensures counted { self.old.calls.faults ≤ self.new.calls.faults }

        ensures fails { IsErrOf result ShelfEnd.Failed ↔ NextFails self.old.calls }
        ensures calls { result ≢ Err ShelfEnd.Failed → self.new.calls ≡ after_call self.old.calls }
        ensures fault { IsErrOf result ShelfEnd.Failed
            → self.new.calls ≡ after_fault self.old.calls }
        ensures put { OnOk result
            (self.new.contents ≡ with_bytes self.old.contents name.now bytes.now) }
        ensures unchanged { OnErr result (self.new.contents ≡ self.old.contents) }
    {
        if self.calls.next_fails() {
            return Err(ShelfEnd::Failed);
        }
        put(alloc, &mut self.contents, name.as_bytes(), bytes)?;
        Ok(())
    }
}

/// A shelf in memory whose calls never fail, but for want of memory.
#[derive(Drop)]
pub struct SureShelf {
    inner: MemoryShelf,
}

impl Model for SureShelf {
    ghost use Rattle.std.specs.Prelude.{◌≡◌, []};
    ghost use Rattle.dsde_io.specs.MemoryShelf.{SureShelfState};

    ghost Value = { SureShelfState };

    ghost view = { λ shelf. record { contents = shelf.inner.contents; calls = shelf.inner.calls.made } };

    ghost invariant = { λ shelf. (shelf.inner.calls.failing ≡ []) × (shelf.inner.calls.faults ≡ 0) };
}

impl SureShelf {
    /// A shelf of these bytes, no two under one name.
    pub fn new(contents: Seq<Stored>) -> SureShelf
        requires { AreDistinct contents }
        ensures { result ≡ record { contents = contents; calls = 0 } }
    {
        let stored = contents.into_vec();
        let failing = Seq::new(*stored.allocator());
        SureShelf {
            inner: MemoryShelf::new(Seq::from_vec(stored), failing),
        }
    }

    /// How many loads and stores there were, up to 2^64 - 1.
    pub fn calls(&self) -> u64
        ensures { result ≡ self.now.calls }
    {
        self.inner.calls()
    }

    /// What the shelf holds, no two under one name.
    pub fn contents(&self) -> &Seq<Stored>
        ensures value { result.now ≡ self.now.contents }
        ensures distinct { AreDistinct result.now }
    {
        self.inner.contents()
    }
}

impl Shelf for SureShelf {
    ghost held = { λ shelf. Some (bytes_under shelf.contents) };

    ghost faults = { λ _. 0 };

    fn load(&mut self, alloc: Global, name: &str, limit: u64) -> Result<Text, ShelfEnd>
        ensures told { IfOk result (λ bytes. bytes_under self.old.contents name.now ≡ Some bytes) }
        ensures within { IfOk result (λ bytes. length bytes ≤ limit) }
        ensures absent { IsErrOf result ShelfEnd.Absent
            → bytes_under self.old.contents name.now ≡ None }
        ensures too_long { IsErrOf result ShelfEnd.TooLong
            → IsSomeAnd (bytes_under self.old.contents name.now) (λ bytes. limit < length bytes) }

        ensures sure { result ≢ Err ShelfEnd.Failed }
        ensures calls { self.new.calls ≡ one_more self.old.calls }
        ensures kept { self.new.contents ≡ self.old.contents }
    {
        self.inner.load(alloc, name, limit)
    }

    fn store(&mut self, alloc: Global, name: &str, bytes: &[u8]) -> Result<(), ShelfEnd>
        ensures stored { OnOk result (bytes_under self.new.contents name.now ≡ Some bytes.now) }
        ensures others { (other : List ℕ) → other ≢ name.now
            → bytes_under self.new.contents other ≡ bytes_under self.old.contents other }
        ensures not_absent { result ≢ Err ShelfEnd.Absent }
        ensures not_too_long { result ≢ Err ShelfEnd.TooLong }

        ensures sure { result ≢ Err ShelfEnd.Failed }
        ensures calls { self.new.calls ≡ one_more self.old.calls }
        ensures put { OnOk result
            (self.new.contents ≡ with_bytes self.old.contents name.now bytes.now) }
        ensures unchanged { OnErr result (self.new.contents ≡ self.old.contents) }
    {
        self.inner.store(alloc, name, bytes)
    }
}

//! A source in memory.

ghost use Rattle.std.specs.Prelude.{◌≡◌, ◌<◌, ◌≤◌, ◌↔◌, [], ◌++◌, Some, length, take, drop, min, IsOk, IsErr, IfOk, OnOk, OnErr};
ghost use Rattle.dsde_io.specs.Fault.{Rose, one_more};
ghost use Rattle.dsde_io.specs.Calls.{no_calls, NextFails, after_call, after_fault};

use crate::calls::Calls;
use crate::{Failed, Source};
use dsde_values::{Seq, Text};
use std::marker::Model;

/// A source in memory, some of whose reads fail.
#[derive(Drop)]
pub struct MemorySource {
    bytes: Text,
    /// How many of the bytes are read.
    taken: usize,
    largest: usize,
    calls: Calls,
}

impl Model for MemorySource {
    ghost use Rattle.std.specs.Prelude.{◌<◌, ◌≤◌, drop, length};
    ghost use Rattle.dsde_io.specs.MemorySource.{MemorySourceState};

    ghost Value = { MemorySourceState };

    ghost view = { λ source. record {
      left = drop source.taken source.bytes;
      largest = source.largest;
      calls = source.calls;
    } };

    ghost invariant = { λ source. (source.taken ≤ length source.bytes) × (0 < source.largest) };
}

impl MemorySource {
    /// A source of these bytes, which gives at most `largest` of them in one read. The reads of
    /// the numbers in `failing`, counted from 1, fail.
    pub fn new(contents: Text, largest: usize, failing: Seq<u64>) -> MemorySource
        requires { 0 < largest }
        ensures { result ≡ record { left = contents; largest = largest; calls = no_calls failing } }
    {
        MemorySource {
            bytes: contents,
            taken: 0,
            largest,
            calls: Calls::new(failing),
        }
    }

    /// How many reads there were, up to 2^64 - 1.
    pub fn calls(&self) -> u64
        ensures { result ≡ self.now.calls.made }
    {
        self.calls.made()
    }

    /// The bytes that are left.
    pub fn contents(&self) -> &[u8]
        ensures { result.now ≡ self.now.left }
    {
        rest_of(self.bytes.as_slice(), self.taken)
    }
}

impl Source for MemorySource {
    ghost left = { λ source. Some source.left };

    ghost faults = { λ source. source.calls.faults };

    fn read(&mut self, piece: &mut [u8]) -> Result<usize, Failed>
        requires { 0 < length piece.old }
        ensures within { IfOk result (λ count. count ≤ length piece.old) }
        ensures taken { IfOk result
            (λ count. self.old.left ≡ take count piece.new ++ self.new.left) }
        ensures end { IfOk result (λ count. count ≡ 0 → self.old.left ≡ []) }
        ensures kept { OnErr result (self.new.left ≡ self.old.left) }
        ensures cause { OnErr result (Rose self.old.calls.faults self.new.calls.faults) }
        ensures counted { self.old.calls.faults ≤ self.new.calls.faults }

        ensures fails { IsErr result ↔ NextFails self.old.calls }
        ensures count { IfOk result (λ count.
            count ≡ min (min (length self.old.left) (length piece.old)) self.old.largest) }
        ensures rest { IfOk result (λ count. drop count piece.new ≡ drop count piece.old) }
        ensures piece_kept { OnErr result (piece.new ≡ piece.old) }
        ensures calls { OnOk result (self.new.calls ≡ after_call self.old.calls) }
        ensures fault { OnErr result (self.new.calls ≡ after_fault self.old.calls) }
        ensures largest { self.new.largest ≡ self.old.largest }
    {
        if self.calls.next_fails() {
            return Err(Failed);
        }
        let left = rest_of(self.bytes.as_slice(), self.taken);
        let count = copy_front(left, piece, self.largest);
        self.taken += count;
        Ok(count)
    }
}

/// The bytes from a place on.
fn rest_of(bytes: &[u8], place: usize) -> &[u8]
    requires { place ≤ length bytes.now }
    ensures { result.now ≡ drop place bytes.now }
{
    &bytes[place..]
}

/// Copies bytes from the front to the front, as many as are there and fit, at most `largest`.
/// Answers how many.
fn copy_front(from: &[u8], to: &mut [u8], largest: usize) -> usize
    ensures count { result ≡ min (min (length from.now) (length to.old)) largest }
    ensures copied { to.new ≡ take result from.now ++ drop result to.old }
{
    let count = from.len().min(to.len()).min(largest);
    to[..count].copy_from_slice(&from[..count]);
    count
}

/// A source in memory whose reads never fail.
#[derive(Drop)]
pub struct SureSource {
    inner: MemorySource,
}

impl Model for SureSource {
    ghost use Rattle.std.specs.Prelude.{◌≡◌, []};
    ghost use Rattle.dsde_io.specs.MemorySource.{SureSourceState};

    ghost Value = { SureSourceState };

    ghost view = { λ source. record {
      left = source.inner.left;
      largest = source.inner.largest;
      calls = source.inner.calls.made;
    } };

    ghost invariant = { λ source. (source.inner.calls.failing ≡ []) × (source.inner.calls.faults ≡ 0) };
}

impl SureSource {
    /// A source of these bytes, which gives at most `largest` of them in one read.
    pub fn new(contents: Text, largest: usize) -> SureSource
        requires { 0 < largest }
        ensures { result ≡ record { left = contents; largest = largest; calls = 0 } }
    {
        let bytes = contents.into_vec();
        let failing = Seq::new(*bytes.allocator());
        SureSource {
            inner: MemorySource::new(Seq::from_vec(bytes), largest, failing),
        }
    }

    /// How many reads there were, up to 2^64 - 1.
    pub fn calls(&self) -> u64
        ensures { result ≡ self.now.calls }
    {
        self.inner.calls()
    }

    /// The bytes that are left.
    pub fn contents(&self) -> &[u8]
        ensures { result.now ≡ self.now.left }
    {
        self.inner.contents()
    }
}

impl Source for SureSource {
    ghost left = { λ source. Some source.left };

    ghost faults = { λ _. 0 };

    fn read(&mut self, piece: &mut [u8]) -> Result<usize, Failed>
        requires { 0 < length piece.old }
        ensures within { IfOk result (λ count. count ≤ length piece.old) }
        ensures taken { IfOk result
            (λ count. self.old.left ≡ take count piece.new ++ self.new.left) }
        ensures end { IfOk result (λ count. count ≡ 0 → self.old.left ≡ []) }
        ensures sure { IsOk result }
        ensures count { IfOk result (λ count.
            count ≡ min (min (length self.old.left) (length piece.old)) self.old.largest) }
        ensures rest { IfOk result (λ count. drop count piece.new ≡ drop count piece.old) }
        ensures calls { self.new.calls ≡ one_more self.old.calls }
        ensures largest { self.new.largest ≡ self.old.largest }
    {
        self.inner.read(piece)
    }
}

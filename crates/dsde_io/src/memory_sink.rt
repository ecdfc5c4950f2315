//! A sink in memory.

ghost use Rattle.std.specs.Prelude.{◌≡◌, ◌≢◌, ◌<◌, ◌≤◌, ◌↔◌, [], ◌++◌, Some, length, take, IfOk, OnErr, IsErrOf};
ghost use Rattle.dsde_io.specs.Fault.{Rose, one_more};
ghost use Rattle.dsde_io.specs.Calls.{no_calls, NextFails, after_call, after_fault};

use crate::calls::Calls;
use crate::{Sink, SinkEnd};
use dsde_values::{Seq, Text};
use std::marker::Model;

/// A sink in memory, some of whose writes fail.
#[derive(Drop)]
pub struct MemorySink {
    bytes: Text,
    calls: Calls,
}

impl Model for MemorySink {
    ghost use Rattle.dsde_io.specs.MemorySink.{MemorySinkState};

    ghost Value = { MemorySinkState };

    ghost view = { λ sink. record { written = sink.bytes; calls = sink.calls } };
}

impl MemorySink {
    /// A sink that holds these bytes, and writes behind them. The writes of the numbers in
    /// `failing`, counted from 1, fail.
    pub fn new(contents: Text, failing: Seq<u64>) -> MemorySink
        ensures { result ≡ record { written = contents; calls = no_calls failing } }
    {
        MemorySink {
            bytes: contents,
            calls: Calls::new(failing),
        }
    }

    /// How many writes there were, up to 2^64 - 1.
    pub fn calls(&self) -> u64
        ensures { result ≡ self.now.calls.made }
    {
        self.calls.made()
    }

    /// The bytes that the sink holds.
    pub fn contents(&self) -> &[u8]
        ensures { result.now ≡ self.now.written }
    {
        self.bytes.as_slice()
    }
}

impl Sink for MemorySink {
    ghost written = { λ sink. Some sink.written };

    ghost faults = { λ sink. sink.calls.faults };

    fn write(&mut self, piece: &[u8]) -> Result<usize, SinkEnd>
        requires { 0 < length piece.now }
        ensures within { IfOk result (λ count. (0 < count) × (count ≤ length piece.now)) }
        ensures gained { IfOk result
            (λ count. self.new.written ≡ self.old.written ++ take count piece.now) }
        ensures kept { OnErr result (self.new.written ≡ self.old.written) }
        ensures cause { IsErrOf result SinkEnd.Failed
            → Rose self.old.calls.faults self.new.calls.faults }
        ensures counted { self.old.calls.faults ≤ self.new.calls.faults }

        ensures fails { IsErrOf result SinkEnd.Failed ↔ NextFails self.old.calls }
        ensures count { IfOk result (λ count. count ≡ length piece.now) }
        ensures calls { result ≢ Err SinkEnd.Failed → self.new.calls ≡ after_call self.old.calls }
        ensures fault { IsErrOf result SinkEnd.Failed
            → self.new.calls ≡ after_fault self.old.calls }
    {
        if self.calls.next_fails() {
            return Err(SinkEnd::Failed);
        }
        self.bytes.extend_from_slice(piece)?;
        Ok(piece.len())
    }
}

/// A sink in memory whose writes never fail, but for want of memory.
#[derive(Drop)]
pub struct SureSink {
    inner: MemorySink,
}

impl Model for SureSink {
    ghost use Rattle.std.specs.Prelude.{◌≡◌, []};
    ghost use Rattle.dsde_io.specs.MemorySink.{SureSinkState};

    ghost Value = { SureSinkState };

    ghost view = { λ sink. record { written = sink.inner.written; calls = sink.inner.calls.made } };

    ghost invariant = { λ sink. (sink.inner.calls.failing ≡ []) × (sink.inner.calls.faults ≡ 0) };
}

impl SureSink {
    /// A sink that holds these bytes, and writes behind them.
    pub fn new(contents: Text) -> SureSink
        ensures { result ≡ record { written = contents; calls = 0 } }
    {
        let bytes = contents.into_vec();
        let failing = Seq::new(*bytes.allocator());
        SureSink {
            inner: MemorySink::new(Seq::from_vec(bytes), failing),
        }
    }

    /// How many writes there were, up to 2^64 - 1.
    pub fn calls(&self) -> u64
        ensures { result ≡ self.now.calls }
    {
        self.inner.calls()
    }

    /// The bytes that the sink holds.
    pub fn contents(&self) -> &[u8]
        ensures { result.now ≡ self.now.written }
    {
        self.inner.contents()
    }
}

impl Sink for SureSink {
    ghost written = { λ sink. Some sink.written };

    ghost faults = { λ _. 0 };

    fn write(&mut self, piece: &[u8]) -> Result<usize, SinkEnd>
        requires { 0 < length piece.now }
        ensures within { IfOk result (λ count. (0 < count) × (count ≤ length piece.now)) }
        ensures gained { IfOk result
            (λ count. self.new.written ≡ self.old.written ++ take count piece.now) }
        ensures kept { OnErr result (self.new.written ≡ self.old.written) }
        ensures sure { result ≢ Err SinkEnd.Failed }
        ensures count { IfOk result (λ count. count ≡ length piece.now) }
        ensures calls { self.new.calls ≡ one_more self.old.calls }
    {
        self.inner.write(piece)
    }
}

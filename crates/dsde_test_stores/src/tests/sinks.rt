//! Sinks in memory.

use crate::tests::text;
use dsde_io::{MemorySink, Sink, SureSink, write_all};
use dsde_values::{Memory, Seq};
use std::alloc::Global;

/// Whether all of a text is written.
pub fn takes<W: Sink>(sink: &mut W, bytes: &[u8]) -> bool {
    write_all(sink, bytes).is_ok()
}

/// Whether a sink whose writes never fail holds what is written, behind what it held.
fn is_written(sink: &mut SureSink) -> bool {
    takes(sink, b"bc")
        && takes(sink, b"")
        && takes(sink, b"d")
        && sink.contents() == b"abcd".as_slice()
        && sink.calls() == 2
}

/// The same of a sink that holds a byte.
fn is_sure(alloc: Global) -> bool {
    match text(alloc, b"a") {
        Ok(bytes) => is_written(&mut SureSink::new(bytes)),
        Err(Memory) => false,
    }
}

#[test]
fn a_sure_sink_holds_what_is_written(rt: HostRuntime) {
    assert!(rt; is_sure(rt.alloc()));
}

/// Whether a sink holds what is written whose second write fails.
fn is_failing(sink: &mut MemorySink) -> bool {
    takes(sink, b"bc")
        && !takes(sink, b"d")
        && takes(sink, b"e")
        && sink.contents() == b"abce".as_slice()
        && sink.calls() == 3
}

/// The same of a sink that holds a byte, whose writes of these numbers fail.
fn fails(alloc: Global, failing: &[u64]) -> bool {
    match (text(alloc, b"a"), Seq::from_slice(alloc, failing)) {
        (Ok(bytes), Ok(failing)) => is_failing(&mut MemorySink::new(bytes, failing)),
        _ => false,
    }
}

#[test]
fn a_sink_fails_as_told(rt: HostRuntime) {
    assert!(rt; fails(rt.alloc(), &[2]));
}

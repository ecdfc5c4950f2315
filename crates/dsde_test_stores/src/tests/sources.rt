//! Sources in memory.

use crate::tests::text;
use dsde_io::{Failed, MemorySource, Source, SureSource};
use dsde_values::{Memory, Seq};
use std::alloc::Global;

/// Whether one read of at most four bytes gives these, or fails where they are `!`.
pub fn gives<R: Source>(source: &mut R, wanted: &[u8]) -> bool {
    let mut piece = [0u8; 4];
    match source.read(&mut piece) {
        Ok(count) => &piece[..count] == wanted,
        Err(Failed) => wanted == b"!".as_slice(),
    }
}

/// Whether a source whose reads never fail gives its bytes, three in one read.
fn is_read(source: &mut SureSource) -> bool {
    gives(source, b"abc")
        && gives(source, b"def")
        && gives(source, b"g")
        && gives(source, b"")
        && source.contents().is_empty()
        && source.calls() == 4
}

/// The same of a source of seven bytes.
fn is_sure(alloc: Global) -> bool {
    match text(alloc, b"abcdefg") {
        Ok(bytes) => is_read(&mut SureSource::new(bytes, 3)),
        Err(Memory) => false,
    }
}

#[test]
fn a_sure_source_gives_its_bytes(rt: HostRuntime) {
    assert!(rt; is_sure(rt.alloc()));
}

/// Whether a source gives its bytes whose second and fourth reads fail.
fn is_failing(source: &mut MemorySource) -> bool {
    gives(source, b"abcd")
        && gives(source, b"!")
        && source.contents() == b"efg".as_slice()
        && gives(source, b"efg")
        && gives(source, b"!")
        && gives(source, b"")
        && source.calls() == 5
}

/// The same of a source of seven bytes whose reads of these numbers fail.
fn fails(alloc: Global, failing: &[u64]) -> bool {
    match (text(alloc, b"abcdefg"), Seq::from_slice(alloc, failing)) {
        (Ok(bytes), Ok(failing)) => is_failing(&mut MemorySource::new(bytes, 9, failing)),
        _ => false,
    }
}

#[test]
fn a_source_fails_as_told(rt: HostRuntime) {
    assert!(rt; fails(rt.alloc(), &[4, 2]));
}

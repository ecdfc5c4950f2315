//! Real files: as shelves, and as streams.

use crate::tests::shelves::{load, store};
use crate::tests::sinks::takes;
use crate::tests::sources::gives;
use crate::tests::streams::{reads, writes};
use dsde_io::{FileShelf, StreamSink, StreamSource};
use std::alloc::Global;
use std::io::{BufWriter, Read, Write};
use std::rt::Files;
use std::test::Fail;
use std::{fs, process};

/// Whether two texts are written, one behind the other.
fn are_written<W: Write>(writer: W) -> bool
where
    W: Drop,
{
    let mut sink = StreamSink::new(writer);
    takes(&mut sink, b"abc") && takes(&mut sink, b"defg") && sink.faults() == 0
}

/// Whether they are read.
fn are_read<R: Read>(reader: R) -> bool
where
    R: Drop,
{
    let mut source = StreamSource::new(reader);
    gives(&mut source, b"abcd")
        && gives(&mut source, b"efg")
        && gives(&mut source, b"")
        && source.faults() == 0
}

/// Whether a file is loaded that is stored twice.
fn is_stored<R: Files>(alloc: Global, files: &R, name: &str) -> bool {
    let mut shelf = FileShelf::new(files);
    store(alloc, &mut shelf, name, b"abcdef") == b'+'
        && store(alloc, &mut shelf, name, b"ghij") == b'+'
        && load(alloc, &mut shelf, name, 4, b"ghij") == b'+'
        && load(alloc, &mut shelf, name, 3, b"") == b'>'
        && shelf.faults() == 0
}

/// Whether a file of this name is written and read as a stream, and then stored and loaded.
fn is_kept<R: Files>(alloc: Global, files: &R, name: &str) -> bool {
    let Ok(writer) = fs::create(files, name) else {
        return false;
    };
    let are_written = are_written(writer);
    let Ok(reader) = fs::open(files, name) else {
        return false;
    };
    let are_read = are_read(reader);
    let is_stored = is_stored(alloc, files, name);
    are_written && are_read && is_stored && fs::remove_file(files, name).is_ok()
}

#[test]
fn files_are_loaded_and_stored(rt: HostRuntime) -> Result<(), Fail> {
    let number = process::id(rt.process());
    let name = format!(in rt.alloc(); "/tmp/dsde_stores_{number}")?;
    assert!(rt; is_kept(rt.alloc(), &rt, name.as_str()));
    Ok(())
}

/// Whether a shelf answers as it should of files that can be neither stored nor loaded.
fn are_refused<R: Files>(alloc: Global, files: &R) -> bool {
    let mut shelf = FileShelf::new(files);
    store(alloc, &mut shelf, "/", b"a") == b'!'
        && store(alloc, &mut shelf, "/dev/full", b"a") == b'!'
        && load(alloc, &mut shelf, "/no/such/file", 9, b"") == b'?'
        && load(alloc, &mut shelf, "/dev/zero", 1000, b"") == b'>'
        && load(alloc, &mut shelf, "/", 9, b"") == b'!'
        && load(alloc, &mut shelf, "a\0b", 9, b"") == b'!'
        && shelf.faults() == 4
}

#[test]
fn files_that_cannot_be_read_fail(rt: HostRuntime) {
    assert!(rt; are_refused(rt.alloc(), &rt));
}

/// Whether a read, a write and a flush fail, each as one fault.
fn are_counted<R: Files>(alloc: Global, files: &R) -> bool {
    let (Ok(folder), Ok(full), Ok(flushed)) = (
        fs::open(files, "/"),
        fs::create(files, "/dev/full"),
        fs::create(files, "/dev/full"),
    ) else {
        return false;
    };
    let Ok(buffered) = BufWriter::new(alloc, flushed) else {
        return false;
    };
    reads(folder, 1) && writes(full, 1) && writes(buffered, 1)
}

#[test]
fn failed_calls_are_counted(rt: HostRuntime) {
    assert!(rt; are_counted(rt.alloc(), &rt));
}

//! Sources and sinks over readers and writers that interrupt, or take little.

ghost use Rattle.std.specs.Prelude.{◌≤◌, IfOk};

use crate::tests::sinks::takes;
use dsde_io::{Source, StreamSink, StreamSource};
use std::io;
use std::io::{Error, ErrorKind, Read, Write};

/// A reader and a writer that signals interrupt, and that then gives and takes at most some bytes.
#[derive(Drop)]
struct Unsteady {
    interruptions: u32,
    largest: usize,
}

impl Unsteady {
    fn count(&mut self, len: usize) -> io::Result<usize>
        ensures { IfOk result (λ count. count ≤ len) }
    {
        if self.interruptions > 0 {
            self.interruptions -= 1;
            return Err(Error::from(ErrorKind::Interrupted));
        }
        Ok(len.min(self.largest))
    }
}

impl Read for Unsteady {
    fn read(&mut self, buf: &mut [u8]) -> io::Result<usize> {
        self.count(buf.len())
    }
}

impl Write for Unsteady {
    fn write(&mut self, buf: &[u8]) -> io::Result<usize> {
        self.count(buf.len())
    }

    fn flush(&mut self) -> io::Result<()> {
        Ok(())
    }
}

/// Whether a read counts so many faults, and fails where that is any.
pub fn reads<R: Read>(reader: R, faults: u64) -> bool
where
    R: Drop,
{
    let mut source = StreamSource::new(reader);
    let is_read = source.read(&mut [0; 4]).is_ok();
    is_read == (faults == 0) && source.faults() == faults
}

/// Whether writing a text counts so many faults, and fails where that is any.
pub fn writes<W: Write>(writer: W, faults: u64) -> bool
where
    W: Drop,
{
    let mut sink = StreamSink::new(writer);
    let is_written = takes(&mut sink, b"abc");
    is_written == (faults == 0) && sink.faults() == faults
}

/// The same of a read and of writes of one byte each, the first of which is interrupted so often.
fn are_made(interruptions: u32, faults: u64) -> bool {
    let largest = 1;
    let reader = Unsteady {
        interruptions,
        largest,
    };
    let writer = Unsteady {
        interruptions,
        largest,
    };
    reads(reader, faults) && writes(writer, faults)
}

#[test]
fn interrupted_calls_are_made_again(rt: HostRuntime) {
    assert!(rt; are_made(0, 0) && are_made(63, 0) && are_made(64, 1));
}

#[test]
fn a_writer_that_takes_nothing_fails(rt: HostRuntime) {
    let writer = Unsteady {
        interruptions: 0,
        largest: 0,
    };
    assert!(rt; writes(writer, 1));
}

/// A writer that takes one byte at a time and keeps it.
#[derive(Drop)]
struct OneByOne {
    taken: Vec<u8>,
}

impl Write for OneByOne {
    fn write(&mut self, buf: &[u8]) -> io::Result<usize> {
        let Some(byte) = buf.first() else {
            return Ok(0);
        };
        self.taken.push(*byte)?;
        Ok(1)
    }

    fn flush(&mut self) -> io::Result<()> {
        Ok(())
    }
}

/// Whether such a writer has taken all the bytes of a text once they are written to it.
fn is_taken(writer: &mut OneByOne, bytes: &[u8]) -> bool {
    takes(&mut StreamSink::new(&mut *writer), bytes) && writer.taken.as_slice() == bytes
}

#[test]
fn a_slow_writer_gets_every_byte(rt: HostRuntime) {
    let mut writer = OneByOne {
        taken: Vec::new(rt.alloc()),
    };
    assert!(rt;
        is_taken(
            &mut writer,
            b"add root Counter {n: 0} next 5\nturn 1 at 5\n\0\xff\n"
        )
    );
}

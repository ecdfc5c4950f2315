//! Sources and sinks over streams.

ghost use Rattle.std.specs.Prelude.{◌≡◌, ◌<◌, ◌≤◌, [], true, false, length, take, None, IfSome, IfNone, IfOk, OnOk, IfErr, OnErr};
ghost use Rattle.dsde_io.specs.Bytes.{Gains, Keeps, Takes};
ghost use Rattle.dsde_io.specs.Fault.{one_more};

use crate::{Failed, Sink, SinkEnd, Source};
use std::io::{ErrorKind, Read, Write};
use std::marker::Model;

/// How often a call that a signal interrupts is made before it counts as failed.
const TRIES: u32 = 64;

/// A source over a reader, as standard input. It tells the bytes that are left where the reader
/// tells them, as bytes in memory do and standard input does not, and how many reads failed.
///
/// A read that a signal interrupts is made again, up to 64 times in all, and then fails.
#[derive(Drop)]
pub struct StreamSource<R: Read> {
    reader: R,
    faults: u64,
}

impl<R: Read> Model for StreamSource<R> {
    ghost use Rattle.dsde_io.specs.Stream.{StreamSourceState};

    ghost Value = { StreamSourceState };

    ghost view = { λ source. record { left = R.remaining source.reader; faults = source.faults } };
}

impl<R: Read> StreamSource<R> {
    /// A source of what the reader gives.
    pub fn new(reader: R) -> StreamSource<R>
        ensures { result ≡ record { left = R.remaining reader; faults = 0 } }
    {
        StreamSource { reader, faults: 0 }
    }

    /// How many reads failed, up to 2^64 - 1.
    pub fn faults(&self) -> u64
        ensures { result ≡ self.now.faults }
    {
        self.faults
    }
}

impl<R: Read> Source for StreamSource<R> {
    ghost left = { λ source. source.left };

    ghost faults = { λ source. source.faults };

    fn read(&mut self, piece: &mut [u8]) -> Result<usize, Failed>
        requires { 0 < length piece.old }
        ensures within { IfOk result (λ count. count ≤ length piece.old) }
        ensures taken { IfOk result (λ count. Takes self.old.left self.new.left (take count piece.new)) }
        ensures end { IfOk result (λ count. count ≡ 0 → IfSome self.old.left (λ bytes. bytes ≡ [])) }
        ensures kept { OnErr result (Keeps self.old.left self.new.left) }
        ensures counted { self.old.faults ≤ self.new.faults }
        ensures no_fault { OnOk result (self.new.faults ≡ self.old.faults) }
        ensures fault { OnErr result (self.new.faults ≡ one_more self.old.faults) }
    {
        match read_some(&mut self.reader, piece) {
            Some(count) => Ok(count),
            None => {
                self.faults = self.faults.saturating_add(1);
                Err(Failed)
            }
        }
    }
}

/// How many bytes one read gave; `None` where it failed, or signals interrupted each try.
fn read_some<R: Read>(reader: &mut R, piece: &mut [u8]) -> Option<usize>
    requires { 0 < length piece.old }
    ensures within { IfSome result (λ count. count ≤ length piece.old) }
    ensures taken { IfSome result (λ count. Takes (R.remaining reader.old) (R.remaining reader.new) (take count piece.new)) }
    ensures end { IfSome result (λ count. count ≡ 0 → IfSome (R.remaining reader.old) (λ bytes. bytes ≡ [])) }
    ensures kept { IfNone result (Keeps (R.remaining reader.old) (R.remaining reader.new)) }
{
    for _attempt in 0..TRIES {
        match reader.read(piece) {
            Ok(count) => return Some(count),
            Err(error) if error.kind() == ErrorKind::Interrupted => {}
            Err(_) => return None,
        }
    }
    None
}

/// A sink over a writer, as standard output. It tells the bytes written where the writer tells
/// what it holds, as bytes in memory do and standard output does not, and how many writes failed.
///
/// Each write is flushed, so that its error is seen by that call; what the writer took in a write
/// whose flush failed is not told, and nothing is written after it. A write that a signal
/// interrupts is made again, up to 64 times in all, and then fails; so does one that takes nothing.
#[derive(Drop)]
pub struct StreamSink<W: Write> {
    writer: W,
    /// How many bytes the writer took in a write whose flush failed.
    unflushed: Option<usize>,
    faults: u64,
}

impl<W: Write> Model for StreamSink<W> {
    ghost use Rattle.std.specs.Prelude.{is_some};
    ghost use Rattle.dsde_io.specs.Stream.{StreamSinkState, handed_on};

    ghost Value = { StreamSinkState };

    ghost view = { λ sink. record {
      written = handed_on sink.unflushed (W.contents sink.writer);
      broken = is_some sink.unflushed;
      faults = sink.faults;
    } };
}

impl<W: Write> StreamSink<W> {
    /// A sink that writes to the writer, behind what it holds.
    pub fn new(writer: W) -> StreamSink<W>
        ensures { result ≡ record { written = W.contents writer; broken = false; faults = 0 } }
    {
        StreamSink {
            writer,
            unflushed: None,
            faults: 0,
        }
    }

    /// How many writes failed, up to 2^64 - 1.
    pub fn faults(&self) -> u64
        ensures { result ≡ self.now.faults }
    {
        self.faults
    }
}

impl<W: Write> Sink for StreamSink<W> {
    ghost written = { λ sink. sink.written };

    ghost faults = { λ sink. sink.faults };

    fn write(&mut self, piece: &[u8]) -> Result<usize, SinkEnd>
        requires { 0 < length piece.now }
        ensures within { IfOk result (λ count. (0 < count) × (count ≤ length piece.now)) }
        ensures gained { IfOk result (λ count. Gains self.old.written self.new.written (take count piece.now)) }
        ensures kept { OnErr result (Keeps self.old.written self.new.written) }
        ensures counted { self.old.faults ≤ self.new.faults }
        ensures no_fault { OnOk result (self.new.faults ≡ self.old.faults) }
        ensures fault { OnErr result (self.new.faults ≡ one_more self.old.faults) }
        ensures only_failed { IfErr result (λ end. end ≡ SinkEnd.Failed) }
        ensures broken { self.old.broken ≡ true → (result ≡ Err SinkEnd.Failed) × (self.new ≡ record self.old { faults = one_more self.old.faults }) }
    {
        if self.unflushed.is_none()
            && let Some(count) = write_some(&mut self.writer, piece)
        {
            if self.writer.flush().is_ok() {
                return Ok(count);
            }
            self.unflushed = Some(count);
        }
        self.faults = self.faults.saturating_add(1);
        Err(SinkEnd::Failed)
    }
}

/// How many bytes one write took; `None` where it failed or took nothing, or signals interrupted
/// each try.
fn write_some<W: Write>(writer: &mut W, piece: &[u8]) -> Option<usize>
    ensures within { IfSome result (λ count. (0 < count) × (count ≤ length piece.now)) }
    ensures gained { IfSome result (λ count. Gains (W.contents writer.old) (W.contents writer.new) (take count piece.now)) }
    ensures kept { IfNone result (Keeps (W.contents writer.old) (W.contents writer.new)) }
{
    for _attempt in 0..TRIES {
        match writer.write(piece) {
            Ok(0) => return None,
            Ok(count) => return Some(count),
            Err(error) if error.kind() == ErrorKind::Interrupted => {}
            Err(_) => return None,
        }
    }
    None
}

//! What a sink does and tells, and writing all of a text to one.

ghost use Rattle.std.specs.Prelude.{◌≡◌, ◌<◌, ◌≤◌, ℕ, List, Option, length, take, IfOk, OnOk, OnErr, IsErrOf};
ghost use Rattle.dsde_io.specs.Fault.{Rose};
ghost use Rattle.dsde_io.specs.Bytes.{Gains, GainsFront, Keeps};

use dsde_values::Memory;

/// Why a write took nothing.
#[derive(Clone, Copy)]
pub enum SinkEnd {
    Failed,
    Memory,
}

impl From<Memory> for SinkEnd {
    ghost use Rattle.std.specs.Prelude.{◌≡◌};
    ghost use Rattle.dsde_io.specs.declared.sink.SinkEnd.TheVariants.{Memory};

    ghost from_gives = { λ _ end. end ≡ Memory };

    fn from(_: Memory) -> SinkEnd {
        SinkEnd::Memory
    }
}

/// Where a run's output goes.
pub trait Sink {
    /// The bytes written so far, where the sink tells them.
    ghost written: { Self → Option (List ℕ) };

    /// How many faults there were, up to 2^64 - 1.
    ghost faults: { Self → ℕ };

    /// Writes bytes from the front of `piece`, and answers how many: at least one.
    /// After an `Err` nothing was written.
    fn write(&mut self, piece: &[u8]) -> Result<usize, SinkEnd>
        requires { 0 < length piece.now }
        ensures within { IfOk result (λ count. (0 < count) × (count ≤ length piece.now)) }
        ensures gained { IfOk result (λ count. Gains (written self.old) (written self.new) (take count piece.now)) }
        ensures kept { OnErr result (Keeps (written self.old) (written self.new)) }
        ensures cause { IsErrOf result SinkEnd.Failed → Rose (faults self.old) (faults self.new) }
        ensures counted { faults self.old ≤ faults self.new };
}

/// Writes all the bytes. After an `Err` some of them from the front may be written, and not all.
pub fn write_all<W: Sink>(sink: &mut W, bytes: &[u8]) -> Result<(), SinkEnd>
    ensures gained { OnOk result (Gains (W.written sink.old) (W.written sink.new) bytes.now) }
    ensures front { OnErr result (GainsFront (W.written sink.old) (W.written sink.new) bytes.now) }
    ensures cause { IsErrOf result SinkEnd.Failed → Rose (W.faults sink.old) (W.faults sink.new) }
    ensures counted { W.faults sink.old ≤ W.faults sink.new }
{
    let mut done = 0;
    while done < bytes.len() {
        done += sink.write(&bytes[done..])?;
    }
    Ok(())
}

//! Why no record comes.

use dsde_io::Failed;
use dsde_values::Memory;

/// Why no record was given. The numbers are those of lines, counted from 1.
#[derive(Clone, Copy)]
pub enum InputEnd {
    /// The line is no record.
    BadLine(u64),
    /// The record's time is before that of the record before it, or before the floor.
    Backwards(u64),
    /// The line has more than 65,536 bytes.
    LineTooLong(u64),
    /// A read failed.
    ReadFault,
    Memory,
}

impl From<Memory> for InputEnd {
    ghost use Rattle.std.specs.Prelude.{◌≡◌};
    ghost use Rattle.dsde_input_records.specs.declared.end.InputEnd.TheVariants as input_end;

    ghost from_gives = { λ _ end. end ≡ input_end.Memory };

    fn from(_: Memory) -> InputEnd {
        InputEnd::Memory
    }
}

impl From<Failed> for InputEnd {
    ghost use Rattle.std.specs.Prelude.{◌≡◌};
    ghost use Rattle.dsde_input_records.specs.declared.end.InputEnd.TheVariants as input_end;

    ghost from_gives = { λ _ end. end ≡ input_end.ReadFault };

    fn from(_: Failed) -> InputEnd {
        InputEnd::ReadFault
    }
}

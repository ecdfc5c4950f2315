//! Why a text is refused.

use dsde_language::WrongKind;
use dsde_lists::Memory;

/// Why a model is refused.
#[derive(Clone, Copy)]
pub enum Refusal {
    /// No token begins with a byte, and it separates none.
    BadByte,
    /// A number is past 2^63 - 1, or a letter or `_` follows it directly.
    BadNumber,
    /// No model has such a token there, or the text ends before its model.
    Syntax,
    /// More than 256 brackets, or more than 512 conditions, are open.
    Nested,
    /// The first thing that is wrong in the model.
    Check(WrongKind),
}

/// Why a text gives no model.
#[derive(Clone, Copy)]
pub enum ReadModel {
    /// It is refused, at a line and a column, both counted from 1, columns in bytes.
    Refused {
        kind: Refusal,
        line: u32,
        column: u32,
    },
    /// It has more than 1,048,576 bytes.
    TooLong,
    Memory,
}

impl From<Memory> for ReadModel {
    ghost use Rattle.std.specs.Prelude.{◌≡◌};
    ghost use Rattle.dsde_cli_verdict.specs.declared.refusal.ReadModel.TheVariants as read_model;

    ghost from_gives = { λ _ error. error ≡ read_model.Memory };

    fn from(_error: Memory) -> ReadModel {
        ReadModel::Memory
    }
}

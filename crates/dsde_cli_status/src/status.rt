//! How a call ends.

use dsde_cli_verdict::Refusal;
use dsde_sim_tree::{Fault, InputKind};
use dsde_values::Path;

/// How a command ends.
#[derive(Drop)]
pub enum Status {
    /// The run came to its bound or fell quiet, or the model is accepted, and all was written.
    Done,
    /// The model is refused, at a line and a column of its text, both counted from 1.
    Refused {
        kind: Refusal,
        line: u32,
        column: u32,
    },
    /// The words spell no command.
    Usage,
    /// A line of the input is wanted that is no record.
    BadInput {
        kind: InputKind,
        line: u64,
    },
    /// An expression of the model has no value.
    ModelFault(Fault),
    Unread {
        what: What,
        why: Why,
    },
    Unwritten(What),
    /// Memory ran out.
    Memory,
    BadSave(SaveFault),
}

/// What is read or written.
#[derive(Clone, Copy)]
pub enum What {
    Model,
    Save,
    Input,
    Output,
}

/// Why something was not read.
#[derive(Clone, Copy)]
pub enum Why {
    Absent,
    TooLong,
    Failed,
}

/// What is wrong with a saved run.
#[derive(Drop)]
pub enum SaveFault {
    NotJson,
    WrongForm,
    DoesNotFit(Path),
    FewRecords,
}

impl Status {
    ghost use Rattle.std.specs.Prelude.{◌≡◌};
    ghost use Rattle.dsde_cli_status.specs.Note.{number_of};

    /// The exit status of the program.
    pub fn number(&self) -> u8
        ensures { result ≡ number_of self.now }
    {
        match self {
            Status::Done => 0,
            Status::Refused { .. } => 1,
            Status::Usage => 2,
            Status::BadInput { .. } => 3,
            Status::ModelFault(_) => 4,
            Status::Unread { .. } => 5,
            Status::Unwritten(_) => 6,
            Status::Memory => 7,
            Status::BadSave(_) => 8,
        }
    }
}

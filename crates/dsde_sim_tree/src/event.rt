//! What a run tells.

use crate::Fault;
use dsde_formalism::MoveKind;
use dsde_language::ModelId;
use dsde_values::{Path, Value, Values, When};

/// What a run tells: a line of its trace each. A component is told by its path. The model of an
/// executive is its network. Times are in the model's whole time units; ports are numbered from 0 in
/// declaration order.
#[derive(Drop)]
pub enum Event {
    /// A network starts; its executive and its components come behind it.
    AddNet {
        path: Path,
        model: ModelId,
    },
    /// An atomic component or an executive has started, in this state.
    AddLeaf {
        path: Path,
        model: ModelId,
        state: Values,
        next: When,
    },
    /// A turn begins. Turns are numbered from 1.
    Turn {
        number: u64,
        time: u64,
    },
    /// The root sends a value by an out port.
    Out {
        port: u32,
        value: Value,
    },
    /// An atomic component or an executive receives a value at an in port.
    Get {
        path: Path,
        model: ModelId,
        port: u32,
        value: Value,
    },
    /// An atomic component or an executive has moved to this state.
    Move {
        path: Path,
        model: ModelId,
        kind: MoveKind,
        state: Values,
        next: When,
    },
    /// A component is dropped and all below it, in all this many.
    Drop {
        path: Path,
        count: u64,
    },
    /// The run has ended after this many turns, at this time.
    Finish {
        how: Finish,
        turns: u64,
        time: u64,
    },
}

/// How a run ends.
#[derive(Drop)]
pub enum Finish {
    /// All its turns are done.
    Bound,
    /// There is no input left, and nothing will ever be due.
    Quiet,
    /// A line of the input is wanted that is no record.
    Input { kind: InputKind, line: u64 },
    /// An expression of the model has no value.
    Fault(Fault),
}

/// What is wrong with a line of the input.
#[derive(Clone, Copy)]
pub enum InputKind {
    BadLine,
    Backwards,
    LineTooLong,
}

//! Components that are no networks, and their moves.

use dsde_language::ModelId;
use dsde_values::{Seq, Values, When};

/// A component that is no network, or the executive of one, between two of its moves. Times are in
/// the model's whole time units.
#[derive(Debug, Drop)]
pub struct Leaf {
    /// The atomic model, or the network.
    pub model: ModelId,
    /// Whether it is the executive of the network.
    pub boss: bool,
    /// The arguments of the model, in the order of its parameters.
    pub args: Values,
    /// The values of the state variables, in their order.
    pub state: Values,
    /// The time of its last event.
    pub last: u64,
    /// The time of its next internal event.
    pub next: When,
}

/// The values that come to a component at one time: a list for each in port, in declaration order.
#[derive(Drop)]
pub struct Inputs {
    pub ports: Seq<Values>,
}

/// Which transition a component takes: the internal one where it is due without input, the external
/// one where it has input and is not due, the confluent one where it is due with input
/// (A. C. Chow and B. P. Zeigler, "Parallel DEVS", WSC 1994).
#[derive(Clone, Copy)]
pub enum MoveKind {
    Internal,
    External,
    Confluent,
}

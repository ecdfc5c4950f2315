//! Simulators (F. J. Barros, "Abstract Simulators for the DSDE Formalism", WSC 1998).

use dsde_formalism::Leaf;
use dsde_formalism::given::structure::Link;
use dsde_language::ModelId;
use dsde_values::given::lists::Boxed;
use dsde_values::{Name, Seq, Values};

/// The most names of a path.
pub const DEEPEST: u32 = 64;

/// The simulator of a network: its model with arguments, its executive, its components in the order
/// of their names, and its links.
#[derive(Debug, Drop)]
#[cycle(sim)]
pub struct Net {
    pub model: ModelId,
    pub args: Values,
    pub boss: Leaf,
    pub kids: Seq<Kid>,
    pub links: Seq<Link>,
}

/// The simulator of a component of a network, under the component's name.
#[derive(Debug, Drop)]
#[cycle(sim)]
pub struct Kid {
    pub name: Name,
    pub sim: Sim,
}

/// The simulator of an atomic component or of a network.
#[derive(Debug, Drop)]
#[cycle(sim)]
pub enum Sim {
    Leaf(Leaf),
    Net(Boxed<Net>),
}

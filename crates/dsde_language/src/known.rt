//! What is known where a part of a file is looked at.

use crate::{Family, Func, ModelSig, Port, TypeWord};
use dsde_values::{Seq, Shape, Text};

/// What is known of a file at a place in it.
#[derive(Drop)]
pub struct Known {
    /// The identifiers of types, each at its number: those that the file declares, and then the
    /// others that its models and records name.
    pub words: Seq<TypeWord>,
    /// The types that the file declares, each at its number.
    pub types: Seq<Shape>,
    /// How deep each of these is; counted up to 65.
    pub depths: Seq<u32>,
    /// The models that the file declares, each at its number.
    pub models: Seq<ModelSig>,
    /// The identifiers of the types that are declared before the place.
    pub before: Seq<Text>,
    /// The functions that are declared before the place.
    pub funcs: Seq<Func>,
}

/// What stands round an expression or a statement.
#[derive(Drop)]
pub struct Around {
    pub known: Known,
    /// The names of its body, which no bound name may have. Those of a function are all in scope.
    pub reserved: Seq<Text>,
    /// Whether it sees `elapsed`.
    pub has_elapsed: bool,
    /// Whether it may assign to state variables.
    pub sets_states: bool,
    /// Whether it must have a value.
    pub is_total: bool,
}

/// Where an item of a structure stands.
#[derive(Drop)]
pub struct Site {
    pub around: Around,
    /// The ports of the network.
    pub ports: Seq<Port>,
    /// The ports of its executive.
    pub execs: Seq<Port>,
    /// The models of its components, by their identifiers.
    pub families: Seq<Family>,
}

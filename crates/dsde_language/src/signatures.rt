//! What declarations declare, as others see it.

use dsde_values::{Seq, Text, Ty};

/// The identifier of a type.
#[derive(Drop)]
pub struct TypeWord {
    pub name: Text,
    /// Whether the file declares it as an enum.
    pub is_enum: bool,
}

/// A function that is declared.
#[derive(Drop)]
pub struct Func {
    pub name: Text,
    pub params: Seq<Ty>,
    pub result: Ty,
    /// The height of its body; counted up to 513.
    pub height: u32,
}

/// A port.
#[derive(Drop)]
pub struct Port {
    pub out: bool,
    pub name: Text,
    pub ty: Ty,
}

/// A model of a file, atomic or a network, by its text.
#[derive(Drop)]
pub struct ModelSig {
    pub name: Text,
    pub params: Seq<Ty>,
    pub ports: Seq<Port>,
}

/// The identifier of components of a structure, and the number of their one model.
#[derive(Drop)]
pub struct Family {
    pub name: Text,
    pub model: u32,
}

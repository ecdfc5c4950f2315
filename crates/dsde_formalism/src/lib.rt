//! The formalism: an atomic model, and the executive of a network, as a tuple of functions, and what
//! a component does by it. Types and definitions; no code, and no word on the language of models.
#![tactic(auto)]

pub mod given;
mod leaf;

pub use leaf::{Inputs, Leaf, MoveKind};

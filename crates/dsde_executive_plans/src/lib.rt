//! What structures mean: the plan that the items of a structure give over the values of an executive.
//! Types, definitions and their laws; no code.
#![tactic(auto)]

pub mod given;
mod laws;
mod placed;

pub use laws::plans_are_in_order;
pub use placed::PlacedLink;

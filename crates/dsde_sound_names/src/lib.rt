//! The law that the components of a plan are called as those of its structure. No code.
#![tactic(auto)]

pub mod given;
mod laws;

pub use laws::{plans_are_called_so, plans_are_ordinary};

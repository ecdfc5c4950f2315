//! Statements, functions and bodies resolved: their expressions and blocks are laid into tables.
#![tactic(auto)]

mod bodies;
mod functions;
pub mod given;
mod phases;
mod rooms;
mod statements;
mod values;

pub use bodies::body;
pub use functions::func;

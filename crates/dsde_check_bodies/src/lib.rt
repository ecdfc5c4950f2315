//! The first wrong thing of statements, functions and bodies.
#![tactic(auto)]

mod assignments;
mod bodies;
mod functions;
pub mod given;
mod headers;
mod phases;
mod statements;

pub use bodies::body;
pub use functions::func;

//! Runs of a model in which nothing is wrong come to an end. Laws over definitions. No code.
#![tactic(auto)]

pub mod given;
mod laws;

pub use laws::{engines_fit, inputs_arrive, runs_end};

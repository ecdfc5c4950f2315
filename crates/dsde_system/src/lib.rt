//! What a program means: the formalism's tuple for each of its models, and what fits them.
//! Definitions; no code.
#![tactic(auto)]

pub mod given;

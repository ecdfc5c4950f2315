//! Expressions, blocks and translations of a program, over slots: exactly what they mean.
#![tactic(auto)]

mod env;
pub mod given;
mod laws;
mod via;

pub use dsde_faults::{EvalEnd, FaultKind};
pub use dsde_program::Program;
pub use env::{Env, eval, held_number, run_block};
pub use via::translate;

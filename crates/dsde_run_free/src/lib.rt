//! Runs whose components and executives move in each turn in an order that is drawn, and the
//! simulator that takes their turns.
#![tactic(auto)]

mod as_run;
mod free;
pub mod given;
mod moves;
mod runs;
mod turn;

pub use free::Free;
pub use runs::run_free;

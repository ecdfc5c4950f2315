//! How the components of a network become those of another structure, and how many parts a simulator
//! has and when it is due.
#![tactic(auto)]

mod counting;
mod filling;
pub mod given;
mod splitting;

pub use counting::{next_time, parts};
pub use filling::{change, refilled};
pub use splitting::split;

//! A schedule: pairs of a time and a handle, the least taken first.
#![tactic(auto)]

mod heap;
mod queue;

pub use queue::Queue;

//! What a step of the tree tells, event by event, and the paths at which it does.
#![tactic(auto)]

mod paths;
mod tell;

pub use paths::{at, below, boss_of, copy_path};
pub use tell::{tell_drop, tell_gets, tell_leaf, tell_net, tell_outs};

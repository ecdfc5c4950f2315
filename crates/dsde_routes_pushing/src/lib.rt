//! What links carry from the sources of a tree to its parts is what is pushed along its rows.
#![tactic(auto)]

pub mod given;
mod pushing;
mod trees;

pub use pushing::{push_equals_gather, rows_are_distinct, rows_lead_to_parts};
pub use trees::{rows_carry_as_trees, wirings_carry_as_trees};

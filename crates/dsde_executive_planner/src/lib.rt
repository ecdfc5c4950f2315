//! Draws the plan that the items of a structure give, as the tables of a model have them.
#![tactic(auto)]

mod drawn;
mod entries;
mod few;
mod found;
pub mod given;
mod planner;

pub use planner::Planner;

//! What every engine of a program has in common: what may come to it, its start, what a turn begins with, and
//! the laws of what fits and that what a program means leads on.
#![tactic(auto)]

pub mod given;
mod heads;
mod laws;
mod phases;

pub use heads::{is_taken, items_at, turn_time};
pub use laws::{fitting_trees_are_named, programs_lead_on};
pub use phases::{chosen, received, sent_by_root, started};

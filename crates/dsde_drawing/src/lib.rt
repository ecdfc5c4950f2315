//! An order of items, of which some wait for others, drawn by the words of a generator.
#![tactic(auto)]

mod drawing;

pub use drawing::{Waits, draw};

//! The record that a line of an input spells, read from the line.
#![tactic(auto)]

pub mod given;
mod line;
mod read_record;

pub use dsde_input_records::InputEnd;
pub use line::{LONGEST_LINE, line_record};
pub use read_record::{read_item, space_at};

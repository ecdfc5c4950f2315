//! The records of a run's input, read one after the other from a source, or skipped where an engine took
//! them before.
#![tactic(auto)]

mod feed;
mod held;
mod reader;
mod skipping;

pub use dsde_input_parser::given::input_records::InputEnd;
pub use reader::InputReader;
pub use skipping::{SkipEnd, skip};

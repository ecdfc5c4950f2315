//! The lines of a trace.
#![tactic(auto)]

mod count;
pub mod given;
mod pick;
mod text;

pub use count::{Summary, count_event};
pub use dsde_sim_tree::{Event, Fault, Finish};
pub use pick::{Pick, picked};
pub use text::{input_text, write_end, write_event, write_fault};

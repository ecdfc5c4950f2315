//! A whole run of a program: the turns of an engine on the records of an input, one after the other,
//! and the lines of their trace, which are handed on as they come. Between two turns an engine is
//! saved as the text of an image, and restored of one, and its run goes on with the input that is
//! left. A run without input is counted: how many lines of each kind its trace has.
#![tactic(auto)]

mod advance;
mod count;
mod ends;
pub mod given;
mod path_order;
mod restoring;
mod resuming;
mod run;
mod running;
mod saving;
mod summary;
mod whole;

pub use advance::Advance;
pub use count::{Counted, count_run};
pub use dsde_core::Core;
pub use dsde_io::write_all;
pub use dsde_run_big::big_model;
pub use ends::{RunEnd, run_turns};
pub use restoring::{RestoreError, restore};
pub use resuming::{Unresumed, resume_turns};
pub use run::{Cut, finish_of};
pub use running::Running;
pub use saving::save;
pub use summary::{Summarized, summarize};
pub use whole::{run_leaving, run_model, run_started};

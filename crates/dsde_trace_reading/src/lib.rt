//! A line of a trace, read back: the event whose line it is.
#![tactic(auto)]

mod added;
mod ends;
mod models;
mod parts;
mod reading;
mod searches;

pub use dsde_trace::{Event, Fault, Finish};
pub use reading::{ReadEvent, read_event};

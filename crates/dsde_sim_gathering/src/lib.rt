//! What the links of a network carry to its parts and to its out ports.
#![tactic(auto)]

mod boxes;
mod carry;
pub mod given;
mod names;
mod ports;

pub use boxes::{Inboxes, inboxes_of, sent_by_net};
pub use ports::ins_of;

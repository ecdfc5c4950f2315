//! The words of the program's commands, and what they ask for.
#![tactic(auto)]

mod command;
mod given;
mod number;

pub use command::{Command, Only, RunWords, read_command};

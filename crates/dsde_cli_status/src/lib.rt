//! How the commands of the program end: the status, its exit number, and its line on standard error.
#![tactic(auto)]

pub mod given;
mod note;
mod status;

pub use dsde_cli_verdict::Refusal;
pub use note::report;
pub use status::{SaveFault, Status, What, Why};

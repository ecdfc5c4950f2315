//! What is seen of an expression, or the first wrong thing in it.
#![tactic(auto)]

mod builtins;
mod declared;
mod expr;
pub mod given;
mod steps;

pub use expr::{fit_all, judge, test};

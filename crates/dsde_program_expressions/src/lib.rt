//! Expressions resolved: their nodes are laid into a table, each with numbers for names and parts.
#![tactic(auto)]

mod chains;
mod expr;
pub mod given;
mod leaves;
mod resolver;
mod signs;
mod table;

pub use resolver::{Laid, Resolver};

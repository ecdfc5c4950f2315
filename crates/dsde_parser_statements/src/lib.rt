//! Statements and the items of structures, read from their tokens.
#![tactic(auto)]

mod item;
mod stmt;

pub use item::items_block;
pub use stmt::{block, stmts};

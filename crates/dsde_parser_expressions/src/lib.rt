//! Names, types and expressions, read from the tokens of their texts.
#![tactic(auto)]

mod parser;

pub use parser::{ParseError, Parser};

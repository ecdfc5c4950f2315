//! Models read from the tokens of their texts.
#![tactic(auto)]

mod depth;
mod whole;

pub use dsde_parser_expressions::ParseError;
pub use whole::parse;

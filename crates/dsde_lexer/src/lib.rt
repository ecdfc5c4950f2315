//! Texts of the language cut into tokens, and the lines and columns at which these stand.
#![tactic(auto)]

mod law;
mod lexer;
mod places;
mod printed;

pub use law::texts_are_cut;
pub use lexer::{LexError, lex};
pub use places::Places;
pub use printed::printed_tokens;

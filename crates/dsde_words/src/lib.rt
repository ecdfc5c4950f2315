//! The words of the language: what a word, a reserved word and an identifier are.
#![tactic(auto)]

mod key;
mod word;

pub use key::{Key, is_reserved};
pub use word::{is_word, is_word_byte, word_size};

//! Reads the members of a case out of a JSON file, and tells what differs from what a case wants.
//!
//! A case is an object. What is refused is refused with the name of the member, and a program adds
//! the name of the case and of the file.
#![tactic(auto)]

mod compare;
mod member;
mod text;

pub use compare::{tell_said, tell_text};
pub use member::{cases_of, check_names, items_at, number_at, numbers_at, read_cases, word_at};
pub use serde_json::Value;
pub use text::{bytes_of, text_at};

//! Gives the lines of a file to single calls, and tells what they answer.
//!
//! A file that begins with an empty line has lines that ask for something; one whose first line is `routes` has lines
//! that tell wirings; before those of others stands the text of a model, with an empty line behind it. Lines that ask
//! for nothing are written as they stand.
//!
//! In a text `|` stands for a line feed and `^` for a carriage return, and `<9 TEXT>` for nine times that text.
#![tactic(auto)]

mod asked;
mod calls;
mod events;
mod inputs;
mod lists;
mod names;
mod orders;
mod paths;
mod routes;
mod survivals;
mod text;
mod types;
mod values;

use dsde_values::Memory;
use std::alloc::Global;

/// What comes of the lines of a file.
pub fn answers(alloc: Global, file: &str) -> Result<String, Memory> {
    let mut answers = String::new(alloc);
    match file.split_once('\n').unwrap_or((file, "")) {
        ("", lines) => calls::append_all(alloc, &mut answers, lines)?,
        ("routes", lines) => routes::append_all(alloc, &mut answers, lines)?,
        _ => asked::append_all(alloc, &mut answers, file)?,
    }
    Ok(answers)
}

//! Builds the tables of wirings that the lines of a script tell, changes the wirings, and tells what came
//! of it; and does the same with lines that are drawn, and counts the rows in which a table differs from
//! one that is built anew.
//!
//! `leaf NAME BIRTH`, `link FROM PORT TO PORT [TRANSLATION]` and `network NAME BIRTH BIRTH COUNT` put a
//! wiring together from the inside out, and `root` takes the last network for the whole. `rows` writes its
//! rows, `count` their number, `twice BIRTH` what a table answers where the first row from there is taken
//! out twice and put in twice. `at NAME..`, `gone NAME..`, components and links, and then `change COUNT`
//! change the network at a place, whose fresh components are the last ones. Other lines are written as
//! they stand.
//!
//! The last line is `draw COUNT`. Behind it stands a pattern of a wiring and of two changes of it, in which
//! `/a|b|c/` stands for one of the words, drawn anew each time; its lines are taken until there are so many
//! changes.
//!
//! What is made of a script is not dropped: the program ends soon.

ghost use Rattle.std.specs.Prelude.{◌≡◌, ◌<◌};

mod drawing;
mod parts;
mod rows;
mod script;

use crate::routes::script::Script;
use dsde_base::Steps;
use dsde_lists::Memory;
use std::alloc::Global;
use std::marker::Brand;
use std::mem;
use std::sync::ledger::{Blank, Ledger};

/// Appends what comes of the lines of a script, and of what is drawn behind them.
pub(crate) fn append_all(alloc: Global, answers: &mut String, file: &str) -> Result<(), Memory> {
    let file = String::from_str(alloc, file)?;
    append_told::<Brand>(alloc, answers, &file, Blank::new(1))
}

/// The same with a count of the changes of rows.
fn append_told<L: Ledger>(
    alloc: Global,
    answers: &mut String,
    file: &String,
    blank: Blank,
) -> Result<(), Memory>
    requires name { blank.name ≡ L.name }
    requires parts { blank.parts ≡ L.parts }
    requires backed { 0 < blank.parts }
{
    let mut changes = Steps::<L>::new(blank);
    let mut script = Script::new(alloc);
    script.take_file(alloc, file.as_str(), &mut changes, answers);
    let lost = script.lost;
    mem::forget(script);
    if lost { Err(Memory) } else { Ok(()) }
}

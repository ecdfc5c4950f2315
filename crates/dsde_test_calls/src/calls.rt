//! Calls on values, types, paths, names, decimals, lists, entries, orders, inputs and cases.
//!
//! - `anew`: no value, path or name is kept any more; `redefine`: no definition is.
//! - `enum NAME VARIANT ..`, `record NAME FIELD TYPE, ..`: a definition more; `lawful`: whether they are a lawful table.
//! - `type TYPE`: what the values to come have, as `list opt enum#0`.
//! - `value TEXT`: how many bytes the value has with which the text begins, which is kept; `has TYPE`: how many of those
//!   that are kept have this type over the definitions.
//! - `path TEXT`, `name NAME`: how many of those that are kept come before it, which is kept too.
//! - `decimal TEXT`: the number that it spells; `cases TEXT`: whether it is a file of cases.
//! - `push`, `extend`, `pop`, `set`, `truncate`, `remake`, `box`: a change of a list; `list TEXT`: whether it is that one.
//! - `survives ENTRY > ENTRY`: whether the first survives as the second, each as `NAME MODEL ARGUMENT .. soft`.
//! - `order SEED`: the digits 1 to 5 in the order that the words of that seed draw.
//! - `source CALLS LARGEST FAILING ..`: how often the inputs to come are asked for a record, how many bytes one read of
//!   them gives at most, and which reads fail; `input TEXT`: the answers, and how many bytes are left and reads were made.

use crate::text::bytes_of;
use crate::{inputs, lists, names, orders, paths, survivals, types, values};
use dsde_test_data::cases_of;
use dsde_values::{Memory, Name, Path, Seq, Text, Ty, Types, Value, decimal_of};
use std::alloc::Global;
use std::str;

/// What the lines before have left.
#[derive(Drop)]
pub(crate) struct Kept {
    pub types: Types,
    pub ty: Ty,
    pub values: Vec<Value>,
    pub paths: Vec<Path>,
    pub names: Vec<Name>,
    pub list: Text,
    pub source: Vec<u64>,
}

/// What a line comes to.
#[derive(Clone, Copy)]
pub(crate) enum Answer {
    Done,
    Number(u64),
    Word(&'static str),
}

/// Whether something is so.
pub(crate) fn truth(is_so: bool) -> Answer {
    Answer::Word(if is_so { "yes" } else { "no" })
}

/// Appends what comes of lines.
pub(crate) fn append_all(alloc: Global, answers: &mut String, lines: &str) -> Result<(), Memory> {
    let mut kept = Kept {
        types: Types {
            defs: Seq::new(alloc),
        },
        ty: Ty::Bool,
        values: Vec::new(alloc),
        paths: Vec::new(alloc),
        names: Vec::new(alloc),
        list: Text::new(alloc),
        source: Vec::new(alloc),
    };
    append_over(alloc, answers, &mut kept, lines)
}

fn append_over(
    alloc: Global,
    answers: &mut String,
    kept: &mut Kept,
    lines: &str,
) -> Result<(), Memory> {
    for line in lines.lines() {
        append(alloc, answers, kept, line)?;
    }
    Ok(())
}

/// Appends what comes of a line.
fn append(alloc: Global, answers: &mut String, kept: &mut Kept, line: &str) -> Result<(), Memory> {
    let (word, rest) = line.split_once(' ').unwrap_or((line, ""));
    append_answer(answers, line, answer_of(alloc, kept, word, rest)?)?;
    if word != "input" {
        return Ok(());
    }
    inputs::append(alloc, answers, &kept.source, bytes_of(alloc, rest)?)
}

/// Appends a line with its answer.
fn append_answer(answers: &mut String, line: &str, answer: Answer) -> Result<(), Memory> {
    match answer {
        Answer::Done => writeln!(answers, "{line}")?,
        Answer::Number(number) => writeln!(answers, "{line}: {number}")?,
        Answer::Word(word) => writeln!(answers, "{line}: {word}")?,
    }
    Ok(())
}

/// What a line comes to whose first word is that.
fn answer_of(alloc: Global, kept: &mut Kept, word: &str, rest: &str) -> Result<Answer, Memory> {
    match word {
        "anew" => Ok(clear(alloc, kept)),
        "redefine" => Ok(types::clear(alloc, &mut kept.types)),
        "enum" => types::add_enum(alloc, &mut kept.types, rest),
        "record" => types::add_record(alloc, &mut kept.types, rest),
        "type" => types::set(alloc, &mut kept.ty, rest),
        "has" => values::having(alloc, kept, rest),
        "lawful" => Ok(types::lawful(&kept.types)),
        "name" => names::keep(alloc, &mut kept.names, rest),
        "order" => orders::order_of(alloc, rest),
        "survives" => survivals::survival(alloc, rest),
        "source" => inputs::set(alloc, &mut kept.source, rest),
        _ => answer_to(alloc, kept, word, &bytes_of(alloc, rest)?),
    }
}

fn clear(alloc: Global, kept: &mut Kept) -> Answer {
    kept.values = Vec::new(alloc);
    kept.paths = Vec::new(alloc);
    kept.names = Vec::new(alloc);
    Answer::Done
}

/// The same of one that has a text behind the word.
fn answer_to(alloc: Global, kept: &mut Kept, word: &str, text: &[u8]) -> Result<Answer, Memory> {
    match word {
        "value" => values::keep(alloc, kept, text),
        "path" => paths::keep(alloc, &mut kept.paths, text),
        "decimal" => Ok(decimal(text)),
        "cases" => Ok(truth(are_cases(alloc, text))),
        _ => lists::answer(alloc, &mut kept.list, word, text),
    }
}

fn decimal(text: &[u8]) -> Answer {
    match decimal_of(text) {
        Some(number) => Answer::Number(number),
        None => truth(false),
    }
}

fn are_cases(alloc: Global, text: &[u8]) -> bool {
    match str::from_utf8(text) {
        Ok(text) => cases_of(alloc, text).is_ok(),
        Err(_) => false,
    }
}

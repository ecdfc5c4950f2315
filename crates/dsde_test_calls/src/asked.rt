//! Lines of traces, read back and written again over a model.
//!
//! - `event LINE`: the line that is written of the event whose line that is, behind the numbers of its
//!   model and its port; or that it is the line of none.
//! - `changed LINE`: how many of its bytes can be replaced by a tilde so that it still is a line.
//!
//! What is made of a model is not dropped: the program ends soon.

ghost use Rattle.dsde_language.specs.Right.{IsRight};

use crate::events::{append_changed, append_event};
use dsde_cli_verdict::read_model;
use dsde_program::{Program, resolve};
use dsde_syntax::Model;
use dsde_values::Memory;
use std::alloc::Global;
use std::mem;

/// Appends what comes of the lines behind a model and an empty line.
pub(crate) fn append_all(alloc: Global, answers: &mut String, file: &str) -> Result<(), Memory> {
    let (text, asked) = file.split_once("\n\n").unwrap_or((file, ""));
    let read = read_model(alloc, text.as_bytes());
    let appended = match &read {
        Ok(model) => append_answers(alloc, answers, model, asked),
        Err(_) => append_line(answers, "a model that is not accepted"),
    };
    mem::forget(read);
    appended
}

/// Appends what comes of the lines behind a model.
fn append_answers(
    alloc: Global,
    answers: &mut String,
    model: &Model,
    asked: &str,
) -> Result<(), Memory>
    requires { IsRight model.now }
{
    let program = resolve(alloc, model);
    let appended = match &program {
        Ok(program) => append_over(alloc, answers, program, asked),
        Err(Memory) => Err(Memory),
    };
    mem::forget(program);
    appended
}

/// Appends what comes of lines over a program.
fn append_over(
    alloc: Global,
    answers: &mut String,
    program: &Program,
    asked: &str,
) -> Result<(), Memory> {
    for line in asked.lines() {
        append_answer(alloc, answers, line, program)?;
    }
    Ok(())
}

/// Appends what comes of a line.
fn append_answer(
    alloc: Global,
    answers: &mut String,
    line: &str,
    program: &Program,
) -> Result<(), Memory> {
    let (word, rest) = line.split_once(' ').unwrap_or((line, ""));
    match word {
        "event" => append_event(alloc, answers, rest, program),
        "changed" => append_changed(alloc, answers, rest, program),
        _ => append_line(answers, line),
    }
}

/// Appends a line as it stands.
fn append_line(answers: &mut String, line: &str) -> Result<(), Memory> {
    writeln!(answers, "{line}")?;
    Ok(())
}

//! `dsde_test_cases`: runs whole commands over memory, and compares how they end with what is wanted.
//!
//! The words after the program's name are names of files of cases, or of models that two engines run. It
//! writes a line for each case and each model, which says `ok` or what differs, and then what `report`
//! writes for some statuses by themselves. Of a file whose name ends in `.txt` it writes what single calls
//! answer to its lines.
#![tactic(auto)]

mod compare;
mod engines;
mod left;
mod run;
mod statuses;

use crate::compare::differences;
use crate::run::run;
use crate::statuses::show_statuses;
use anyhow::{Context, Result, anyhow};
use dsde_test_calls::answers;
use dsde_test_data::{Value, check_names, items_at, number_at, read_cases, text_at, word_at};
use std::alloc::Global;
use std::rt::Files;
use std::{env, fs};

fn main(rt: HostRuntime) -> Result<()> {
    for name in env::args(&rt)?.skip(1) {
        take_file(&rt, &name).context(format_args!("{name}"))?;
    }
    show_statuses(&rt)
}

/// Runs the cases of a file, or gives its lines to single calls.
fn take_file(rt: &(impl Files + Print + AllocGlobal), name: &str) -> Result<()> {
    if name.ends_with(".txt") {
        show_answers(rt, name)
    } else {
        run_file(rt, name)
    }
}

/// Writes what single calls answer to the lines of a file.
fn show_answers(rt: &(impl Files + Print + AllocGlobal), name: &str) -> Result<()> {
    let file = fs::read_to_string(rt, name)?;
    let answers = answers(rt.alloc(), file.as_str()).map_err(|_memory| anyhow!("memory ran out"))?;
    Ok(print!(rt; "{answers}")?)
}

/// Runs the cases of a file, and writes a line for each.
///
/// The texts under `models` stand on the shelf of each case. A file without cases has `compared` models.
fn run_file(rt: &(impl Files + Print + AllocGlobal), name: &str) -> Result<()> {
    let file = read_cases(rt, name)?;
    check_names(&file, &["models", "cases", "compared"])?;
    let is_compared = file.get("compared").is_some();
    for case in items_at(&file, if is_compared { "compared" } else { "cases" })? {
        let name = word_at(case, "name")?;
        let lines = if is_compared {
            compared(rt.alloc(), case)
        } else {
            run_case(rt.alloc(), case, &file)
        };
        let lines = lines.context(format_args!("{name}"))?;
        if lines.is_empty() {
            println!(rt; "{name}: ok")?;
        } else {
            print!(rt; "{name}:\n{lines}")?;
        }
    }
    Ok(())
}

/// Runs a case of a file: what differs from what it wants.
///
/// A case has the `words` of a command, `files` that stand on its own shelf, and a text there under the
/// name `model`, the `input`, the most bytes that one read gives (`largest`), and the numbers, counted
/// from 1, of the calls that fail; those of the shelf, loads and stores, are `failing_loads`. It wants
/// the exit `status`, all of `out` or its end, the `notes`, and, where they are said, what is `stored`
/// under each of these names, what is `left` of the input and how many `reads` there are.
fn run_case(alloc: Global, case: &Value, file: &Value) -> Result<String> {
    check_names(
        case,
        &[
            "name",
            "words",
            "files",
            "model",
            "input",
            "largest",
            "failing_loads",
            "failing_reads",
            "failing_writes",
            "failing_notes",
            "status",
            "out",
            "out_ends_with",
            "notes",
            "stored",
            "left",
            "reads",
        ],
    )?;
    let outcome = run(alloc, case, file)?;
    differences(alloc, case, &outcome)
}

/// Runs a `model` on an `input` by both engines, for at most so many `turns`: in what they differ.
fn compared(alloc: Global, case: &Value) -> Result<String> {
    check_names(case, &["name", "model", "input", "turns"])?;
    let turns = u16::try_from(number_at(case, "turns")?.unwrap_or(0))?;
    let text = text_at(alloc, case, "model")?;
    let input = text_at(alloc, case, "input")?;
    engines::differences(alloc, &text, &input, turns).map_err(|_memory| anyhow!("memory ran out"))
}

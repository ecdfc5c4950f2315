//! What a case wants, beside what came.

use crate::run::Outcome;
use anyhow::{Context, Result};
use dsde_io::Stored;
use dsde_test_data::{Value, number_at, tell_said, tell_text, text_at};
use std::alloc::{AllocError, Global};

/// What differs from what a case wants, a line for each thing.
pub(crate) fn differences(alloc: Global, case: &Value, outcome: &Outcome) -> Result<String> {
    let mut lines = String::new(alloc);
    let status = number_at(case, "status")?.context("status: left out")?;
    tell_number(&mut lines, "status", status, u64::from(outcome.status))?;
    tell_out(alloc, &mut lines, case, outcome.out.contents())?;
    tell_text(alloc, &mut lines, case, "notes", outcome.notes.contents())?;
    tell_said(alloc, &mut lines, case, "left", outcome.input.contents())?;
    tell_stored(alloc, &mut lines, case, outcome.shelf.contents().as_slice())?;
    if let Some(reads) = number_at(case, "reads")? {
        tell_number(&mut lines, "reads", reads, outcome.input.calls())?;
    }
    Ok(lines)
}

/// Compares all of what was written, or only its end where the case says how it is to end.
fn tell_out(alloc: Global, lines: &mut String, case: &Value, out: &[u8]) -> Result<()> {
    if case.get("out_ends_with").is_some() {
        let size = text_at(alloc, case, "out_ends_with")?.len();
        let from = out.len().saturating_sub(size);
        tell_text(alloc, lines, case, "out_ends_with", &out[from..])
    } else {
        tell_text(alloc, lines, case, "out", out)
    }
}

/// Compares what the shelf has under each name of which the case says what is to be there.
fn tell_stored(alloc: Global, lines: &mut String, case: &Value, held: &[Stored]) -> Result<()> {
    if let Some(wanted) = case.get("stored") {
        for (name, _text) in wanted.as_object().context("stored: no object")? {
            tell_text(alloc, lines, wanted, name, bytes_under(held, name))?;
        }
    }
    Ok(())
}

/// The bytes under a name: none, where there is nothing.
fn bytes_under<'s>(held: &'s [Stored], name: &str) -> &'s [u8] {
    for item in held {
        if item.name.as_slice() == name.as_bytes() {
            return item.bytes.as_slice();
        }
    }
    &[]
}

fn tell_number(lines: &mut String, what: &str, wanted: u64, got: u64) -> Result<(), AllocError> {
    if wanted != got {
        writeln!(lines, "  {what}: wanted {wanted}, got {got}")?;
    }
    Ok(())
}

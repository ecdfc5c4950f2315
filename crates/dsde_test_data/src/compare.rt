//! What a case wants, beside what came.

use crate::text::text_at;
use anyhow::Result;
use serde_json::Value;
use std::alloc::Global;
use std::str;

/// Adds a line where a case wants another text under this name than what came: an empty one, where
/// it says none.
pub fn tell_text(
    alloc: Global,
    lines: &mut String,
    case: &Value,
    name: &str,
    got: &[u8],
) -> Result<()> {
    let wanted = text_at(alloc, case, name)?;
    if wanted.as_slice() != got {
        let wanted = shown(&wanted);
        let got = shown(got);
        writeln!(lines, "  {name}: wanted {wanted:?}, got {got:?}")?;
    }
    Ok(())
}

/// The same, but any text will do where the case says none.
pub fn tell_said(
    alloc: Global,
    lines: &mut String,
    case: &Value,
    name: &str,
    got: &[u8],
) -> Result<()> {
    if case.get(name).is_some() {
        tell_text(alloc, lines, case, name, got)?;
    }
    Ok(())
}

fn shown(bytes: &[u8]) -> &str {
    str::from_utf8(bytes).unwrap_or("bytes that are no text")
}

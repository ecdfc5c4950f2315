//! A text of a case, long ones said short.

use crate::member::{check_names, number_at, word_of};
use anyhow::{Context, Result};
use serde_json::Value;
use std::alloc::{AllocError, Global};

/// The bytes of a text: none, where it is left out.
pub fn text_at(alloc: Global, object: &Value, name: &str) -> Result<Vec<u8>> {
    match object.get(name) {
        Some(text) => bytes_of(alloc, text).context(format_args!("{name}")),
        None => Ok(Vec::new(alloc)),
    }
}

/// The bytes of a text: a string, or lines, each of which a line feed ends, or a long text.
pub fn bytes_of(alloc: Global, text: &Value) -> Result<Vec<u8>> {
    match text {
        Value::String(text) => Ok(Vec::from_slice(alloc, text.as_bytes())?),
        Value::Array(lines) => joined(alloc, lines),
        _ => long(alloc, text),
    }
}

/// The lines, each with a line feed behind it.
fn joined(alloc: Global, lines: &[Value]) -> Result<Vec<u8>> {
    let mut bytes = Vec::new(alloc);
    for line in lines {
        let line = line.as_str().context("no line")?;
        bytes.extend_from_slice(line.as_bytes())?;
        bytes.push(b'\n')?;
    }
    Ok(bytes)
}

/// A front, then what opens again and again, a middle, what closes as many times, and what is
/// behind it; blanks up to a length.
fn long(alloc: Global, text: &Value) -> Result<Vec<u8>> {
    check_names(
        text,
        &[
            "front", "open", "times", "middle", "close", "behind", "padded",
        ],
    )?;
    let times = number_at(text, "times")?.unwrap_or(0);
    let parts = [
        ("front", 1),
        ("open", times),
        ("middle", 1),
        ("close", times),
        ("behind", 1),
    ];
    let mut bytes = Vec::new(alloc);
    for (name, times) in &parts {
        if let Some(part) = text.get(*name) {
            append_times(&mut bytes, word_of(part, *name)?, *times)?;
        }
    }
    let padded = number_at(text, "padded")?.unwrap_or(0) as usize;
    if bytes.len() < padded {
        bytes.resize(padded, b' ')?;
    }
    Ok(bytes)
}

fn append_times(bytes: &mut Vec<u8>, text: &str, times: u64) -> Result<(), AllocError> {
    for _ in 0..times {
        bytes.extend_from_slice(text.as_bytes())?;
    }
    Ok(())
}

//! Texts in lines.

use dsde_values::Memory;
use std::alloc::Global;

/// The bytes of a text: `|` stands for a line feed and `^` for a carriage return, and `<9 TEXT>` for nine times that text.
pub(crate) fn bytes_of(alloc: Global, text: &str) -> Result<Vec<u8>, Memory> {
    let mut bytes = Vec::new(alloc);
    append_parts(&mut bytes, text)?;
    Ok(bytes)
}

fn append_parts(bytes: &mut Vec<u8>, text: &str) -> Result<(), Memory> {
    for part in text.split('<') {
        match part.split_once('>') {
            Some((many, rest)) => append_many(bytes, many, rest)?,
            None => append(bytes, part)?,
        }
    }
    Ok(())
}

/// Appends a text as often as the number says that stands before it, and then the rest.
fn append_many(bytes: &mut Vec<u8>, many: &str, rest: &str) -> Result<(), Memory> {
    let (count, text) = many.split_once(' ').unwrap_or(("0", many));
    for _ in 0..count.parse::<u64>().unwrap_or(0) {
        append(bytes, text)?;
    }
    append(bytes, rest)
}

fn append(bytes: &mut Vec<u8>, text: &str) -> Result<(), Memory> {
    for byte in text.as_bytes() {
        bytes.push(match *byte {
            b'|' => b'\n',
            b'^' => b'\r',
            byte => byte,
        })?;
    }
    Ok(())
}

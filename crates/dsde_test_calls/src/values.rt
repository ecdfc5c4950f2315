//! Values of a type, read from texts.

use crate::calls::{Answer, Kept, truth};
use crate::types::type_of;
use dsde_values::{
    Memory, ReadValue, Text, Ty, Types, Value, copy_value, equal, has_type, is_lawful, read_value,
    write_value,
};
use std::alloc::Global;

/// How many bytes the value has with which a text begins, which is kept; none where the table of
/// types is not lawful.
pub(crate) fn keep(alloc: Global, kept: &mut Kept, text: &[u8]) -> Result<Answer, Memory> {
    if !is_lawful(&kept.types) {
        return Ok(truth(false));
    }
    match read_value(alloc, text, &kept.ty, &kept.types) {
        Ok((value, size)) => keep_it(alloc, kept, value, &text[..size]),
        Err(ReadValue::NotAValue) => Ok(truth(false)),
        Err(ReadValue::Memory) => Err(Memory),
    }
}

fn keep_it(alloc: Global, kept: &mut Kept, value: Value, text: &[u8]) -> Result<Answer, Memory> {
    let answer = told(alloc, kept, &value, text);
    kept.values.push(value)?;
    answer
}

/// How many bytes a value has, or what is otherwise than it should: its type, how it compares with
/// those that are kept, or its copy.
fn told(alloc: Global, kept: &Kept, value: &Value, text: &[u8]) -> Result<Answer, Memory> {
    if !has_type(value, &kept.ty, &kept.types) {
        return Ok(Answer::Word("of another type"));
    }
    if is_among(&kept.values, value) {
        return Ok(Answer::Word("equal to another"));
    }
    if !is_copied(alloc, value, &kept.types, text)? {
        return Ok(Answer::Word("copied or written otherwise"));
    }
    Ok(Answer::Number(text.len() as u64))
}

/// Whether a value is equal to one of these.
fn is_among(values: &[Value], value: &Value) -> bool {
    for other in values {
        if equal(value, other) || equal(other, value) {
            return true;
        }
    }
    false
}

/// Whether the copy of a value is equal to it, and is written so.
fn is_copied(alloc: Global, value: &Value, types: &Types, text: &[u8]) -> Result<bool, Memory> {
    match copy_value(alloc, value) {
        Ok(copy) if equal(&copy, value) => is_written(alloc, &copy, types, text),
        Ok(_) => Ok(false),
        Err(Memory) => Err(Memory),
    }
}

fn is_written(alloc: Global, value: &Value, types: &Types, text: &[u8]) -> Result<bool, Memory> {
    let mut written = Text::new(alloc);
    write_value(value, types, &mut written)?;
    Ok(written.as_slice() == text)
}

/// How many of the values that are kept have this type.
pub(crate) fn having(alloc: Global, kept: &Kept, words: &str) -> Result<Answer, Memory> {
    let ty = type_of(alloc, words)?;
    Ok(Answer::Number(count_of(&kept.values, &ty, &kept.types)))
}

fn count_of(values: &[Value], ty: &Ty, types: &Types) -> u64 {
    let mut count = 0u64;
    for value in values {
        if has_type(value, ty, types) {
            count = count.saturating_add(1);
        }
    }
    count
}

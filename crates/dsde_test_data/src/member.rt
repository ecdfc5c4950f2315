//! The members of an object, by their names.

use anyhow::{Context, Result, bail, ensure};
use serde_json::Value;
use std::alloc::Global;
use std::fs;
use std::rt::Files;

/// Reads a file of cases.
pub fn read_cases(rt: &(impl Files + AllocGlobal), name: &str) -> Result<Value> {
    let text = fs::read_to_string(rt, name)?;
    cases_of(rt.alloc(), &text)
}

/// Reads cases from a text. An object that has a member twice is refused.
pub fn cases_of(alloc: Global, text: &str) -> Result<Value> {
    let cases = Value::from_str(alloc, text)?;
    // What is read of an object keeps one of the members of a name.
    let kept = cases.to_string(alloc)?;
    ensure!(
        members_in(text) == members_in(&kept),
        "a member is given twice"
    );
    Ok(cases)
}

/// How many members all objects of a JSON text have: as many as colons stand outside its strings.
fn members_in(text: &str) -> usize {
    let mut members = 0usize;
    let mut in_string = false;
    let mut escaped = false;
    for byte in text.as_bytes() {
        if *byte == b'"' && !escaped {
            in_string = !in_string;
        }
        if *byte == b':' && !in_string {
            members = members.saturating_add(1);
        }
        escaped = *byte == b'\\' && !escaped;
    }
    members
}

/// Refuses what is no object, and a member that has none of these names.
pub fn check_names(object: &Value, known: &[&str]) -> Result<()> {
    let members = object.as_object().context("no object")?;
    for (name, _value) in members {
        ensure!(
            (&*known).contains(&name.as_str()),
            "{name}: no name of a member"
        );
    }
    Ok(())
}

/// The items of a list.
pub fn items_at<'v>(object: &'v Value, name: &str) -> Result<&'v [Value]> {
    match object.get(name) {
        Some(list) => items_of(list, name),
        None => bail!("{name}: left out"),
    }
}

fn items_of<'v>(list: &'v Value, name: &str) -> Result<&'v [Value]> {
    let items = list.as_array().context(format_args!("{name}: no list"))?;
    Ok(items.as_slice())
}

/// A string.
pub fn word_at<'v>(object: &'v Value, name: &str) -> Result<&'v str> {
    match object.get(name) {
        Some(word) => word_of(word, name),
        None => bail!("{name}: left out"),
    }
}

pub(crate) fn word_of<'v>(word: &'v Value, name: &str) -> Result<&'v str> {
    word.as_str().context(format_args!("{name}: no string"))
}

/// A number that may be left out.
pub fn number_at(object: &Value, name: &str) -> Result<Option<u64>> {
    match object.get(name) {
        Some(number) => Ok(Some(number_of(number, name)?)),
        None => Ok(None),
    }
}

fn number_of(number: &Value, name: &str) -> Result<u64> {
    number.as_u64().context(format_args!("{name}: no number"))
}

/// The numbers of a list: none, where it is left out.
pub fn numbers_at(alloc: Global, object: &Value, name: &str) -> Result<Vec<u64>> {
    let mut numbers = Vec::new(alloc);
    if let Some(list) = object.get(name) {
        for number in items_of(list, name)? {
            numbers.push(number_of(number, name)?)?;
        }
    }
    Ok(numbers)
}

//! Entries of structures: which of them survive as which.

use crate::calls::{Answer, truth};
use crate::names::name_of;
use dsde_language::ModelId;
use dsde_structure::{Entry, survives};
use dsde_values::{Memory, Seq, Value};
use std::alloc::Global;

/// Whether the first entry survives as the second.
pub(crate) fn survival(alloc: Global, words: &str) -> Result<Answer, Memory> {
    let (old, new) = words.split_once(" > ").unwrap_or((words, ""));
    let old = entry_of(alloc, old)?;
    let new = entry_of(alloc, new)?;
    Ok(truth(survives(&old, &new)))
}

/// The entry of a name, the number of a model, and arguments that are whole numbers. It is soft where
/// the last word says so.
fn entry_of(alloc: Global, words: &str) -> Result<Entry, Memory> {
    let (name, words) = words.split_once(' ').unwrap_or((words, ""));
    let (model, words) = words.split_once(' ').unwrap_or((words, ""));
    let name = name_of(alloc, name)?;
    Ok(Entry {
        name,
        model: ModelId(model.parse::<u32>().unwrap_or(u32::MAX)),
        args: args_of(alloc, words)?,
        soft: words.ends_with("soft"),
    })
}

fn args_of(alloc: Global, words: &str) -> Result<Seq<Value>, Memory> {
    let mut args = Seq::new(alloc);
    for word in words.split(' ') {
        if let Ok(number) = word.parse::<i64>() {
            args.push(Value::Int(number))?;
        }
    }
    Ok(args)
}

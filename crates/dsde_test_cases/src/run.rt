//! A case's command over memory.

use anyhow::{Context, Result, ensure};
use dsde_cli::dsde;
use dsde_io::{MemoryShelf, MemorySink, MemorySource, Stored, has_distinct_names};
use dsde_test_data::{Value, bytes_of, items_at, number_at, numbers_at, text_at};
use dsde_values::{Seq, Text};
use std::alloc::Global;

/// How a command ended, and what it left outside.
#[derive(Drop)]
pub(crate) struct Outcome {
    pub status: u8,
    pub shelf: MemoryShelf,
    pub input: MemorySource,
    pub out: MemorySink,
    pub notes: MemorySink,
}

/// Does what a case's words ask for.
pub(crate) fn run(alloc: Global, case: &Value, file: &Value) -> Result<Outcome> {
    let words = words_of(alloc, case)?;
    let mut shelf = shelf_of(alloc, case, file)?;
    let mut input = input_of(alloc, case)?;
    let mut out = sink(alloc, case, "failing_writes")?;
    let mut notes = sink(alloc, case, "failing_notes")?;
    let status = dsde(alloc, &words, &mut shelf, &mut input, &mut out, &mut notes).number();
    Ok(Outcome {
        status,
        shelf,
        input,
        out,
        notes,
    })
}

fn words_of(alloc: Global, case: &Value) -> Result<Vec<String>> {
    let mut words = Vec::new(alloc);
    for word in items_at(case, "words")? {
        let word = word.as_str().context("words: no string")?;
        words.push(String::from_str(alloc, word)?)?;
    }
    Ok(words)
}

/// The file's models and the case's files under their names, and the case's own model under the name
/// `model`.
fn shelf_of(alloc: Global, case: &Value, file: &Value) -> Result<MemoryShelf> {
    let mut held = Vec::new(alloc);
    put_all(alloc, &mut held, file, "models")?;
    put_all(alloc, &mut held, case, "files")?;
    if let Some(text) = case.get("model") {
        held.push(stored(alloc, "model", text)?)?;
    }
    let held = Seq::from_vec(held);
    ensure!(has_distinct_names(held.as_slice()), "two files of one name");
    Ok(MemoryShelf::new(
        held,
        Seq::from_vec(numbers_at(alloc, case, "failing_loads")?),
    ))
}

/// Puts each text of an object under its name.
fn put_all(alloc: Global, held: &mut Vec<Stored>, object: &Value, member: &str) -> Result<()> {
    if let Some(texts) = object.get(member) {
        for (name, text) in texts.as_object().context("texts: no object")? {
            held.push(stored(alloc, name, text)?)?;
        }
    }
    Ok(())
}

fn stored(alloc: Global, name: &str, text: &Value) -> Result<Stored> {
    let bytes = bytes_of(alloc, text).context(format_args!("{name}"))?;
    Ok(Stored {
        name: Text::from_vec(Vec::from_slice(alloc, name.as_bytes())?),
        bytes: Text::from_vec(bytes),
    })
}

fn input_of(alloc: Global, case: &Value) -> Result<MemorySource> {
    let largest = number_at(case, "largest")?.unwrap_or(u64::MAX) as usize;
    ensure!(0 < largest, "a read that gives no byte is the end");
    let text = text_at(alloc, case, "input")?;
    let failing = numbers_at(alloc, case, "failing_reads")?;
    Ok(MemorySource::new(Text::from_vec(text), largest, Seq::from_vec(failing)))
}

/// An empty sink, whose writes of the numbers under this name fail.
fn sink(alloc: Global, case: &Value, failing: &str) -> Result<MemorySink> {
    let failing = numbers_at(alloc, case, failing)?;
    Ok(MemorySink::new(Text::new(alloc), Seq::from_vec(failing)))
}

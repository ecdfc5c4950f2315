//! Lines read back.

use crate::text::bytes_of;
use dsde_program::Program;
use dsde_trace::{Event, write_event};
use dsde_trace_reading::{ReadEvent, read_event};
use dsde_values::{Memory, Text};
use std::alloc::Global;
use std::{mem, str};

/// Appends the line that is written of the event whose line this is.
pub(crate) fn append_event(
    alloc: Global,
    answers: &mut String,
    line: &str,
    program: &Program,
) -> Result<(), Memory> {
    let bytes = bytes_of(alloc, line)?;
    let read = read_event(alloc, &bytes, program);
    let appended = match &read {
        Ok(event) => append_written(alloc, answers, event, program),
        Err(ReadEvent::NotALine) => append_none(answers, line),
        Err(ReadEvent::Memory) => Err(Memory),
    };
    mem::forget(read);
    appended
}

/// Appends the line of an event, behind the numbers of its model and its port, where it has them.
fn append_written(
    alloc: Global,
    answers: &mut String,
    event: &Event,
    program: &Program,
) -> Result<(), Memory> {
    if let Some(model) = model_of(event) {
        write!(answers, "model {model}: ")?;
    }
    if let Some(port) = port_of(event) {
        write!(answers, "port {port}: ")?;
    }
    let mut text = Text::new(alloc);
    write_event(event, program, &mut text)?;
    answers.push_str(str::from_utf8(text.as_slice()).unwrap_or("no text\n"))?;
    Ok(())
}

fn append_none(answers: &mut String, line: &str) -> Result<(), Memory> {
    writeln!(answers, "no line: {line}")?;
    Ok(())
}

/// The number of the model that an event names.
fn model_of(event: &Event) -> Option<u32> {
    match event {
        Event::AddNet { model, .. } => Some(model.0),
        Event::AddLeaf { model, .. } => Some(model.0),
        Event::Get { model, .. } => Some(model.0),
        Event::Move { model, .. } => Some(model.0),
        _ => None,
    }
}

/// The number of the port of an event.
fn port_of(event: &Event) -> Option<u32> {
    match event {
        Event::Out { port, .. } => Some(*port),
        Event::Get { port, .. } => Some(*port),
        _ => None,
    }
}

/// Appends how many of a line's bytes can be another one.
pub(crate) fn append_changed(
    alloc: Global,
    answers: &mut String,
    line: &str,
    program: &Program,
) -> Result<(), Memory> {
    let mut bytes = bytes_of(alloc, line)?;
    let count = changeable(alloc, &mut bytes, program)?;
    let size = bytes.len();
    writeln!(answers, "{count} of {size}: {line}")?;
    Ok(())
}

/// How many of the bytes can be a tilde so that they still are a line.
fn changeable(alloc: Global, bytes: &mut [u8], program: &Program) -> Result<u64, Memory> {
    let mut count = 0u64;
    for place in 0..bytes.len() {
        let byte = put(bytes, place, b'~');
        if is_line(alloc, bytes, program)? {
            count = count.saturating_add(1);
        }
        put(bytes, place, byte);
    }
    Ok(count)
}

/// Puts a byte at a place, and hands back the one that stood there.
fn put(bytes: &mut [u8], place: usize, byte: u8) -> u8 {
    match bytes.get_mut(place) {
        Some(at) => mem::replace(at, byte),
        None => byte,
    }
}

/// Whether bytes are the line of an event.
fn is_line(alloc: Global, line: &[u8], program: &Program) -> Result<bool, Memory> {
    let read = read_event(alloc, line, program);
    let is_line = match &read {
        Ok(_) => Ok(true),
        Err(ReadEvent::NotALine) => Ok(false),
        Err(ReadEvent::Memory) => Err(Memory),
    };
    mem::forget(read);
    is_line
}

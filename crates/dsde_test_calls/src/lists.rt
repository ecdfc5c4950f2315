//! Lists and boxes.

use crate::calls::{Answer, truth};
use dsde_values::{Boxed, Memory, Seq, Text};
use std::alloc::Global;
use std::mem;

/// Changes a list of bytes, or answers whether it is this one.
///
/// The bytes of a text are pushed, the list is extended by it, one item is popped, one is set at the
/// place of the first digit, or those from that place on are truncated; the list is remade from a
/// `Vec`, or boxed and taken out.
pub(crate) fn answer(
    alloc: Global,
    list: &mut Text,
    word: &str,
    text: &[u8],
) -> Result<Answer, Memory> {
    if word == "list" {
        return Ok(truth(is_so(list, text)));
    }
    change(alloc, list, word, text)?;
    Ok(Answer::Done)
}

fn change(alloc: Global, list: &mut Text, word: &str, text: &[u8]) -> Result<(), Memory> {
    match word {
        "push" => return push_all(list, text),
        "extend" => return list.extend_from_slice(text),
        "box" => return put_into_box(alloc, list),
        "pop" => drop_last(list),
        "set" => set(list, place_of(text), text),
        "truncate" => list.truncate(place_of(text)),
        "remake" => remake(alloc, list),
        _ => {}
    }
    Ok(())
}

/// Whether a list is these bytes, as each call says that looks at it.
fn is_so(list: &Text, bytes: &[u8]) -> bool {
    list.as_slice() == bytes
        && list.len() == bytes.len()
        && list.is_empty() == bytes.is_empty()
        && list.get(1) == bytes.get(1)
}

fn push_all(list: &mut Text, items: &[u8]) -> Result<(), Memory> {
    for item in items {
        list.push(*item)?;
    }
    Ok(())
}

fn drop_last(list: &mut Text) {
    let _last = list.pop();
}

/// The number that the first byte is as a digit.
fn place_of(text: &[u8]) -> usize {
    match text.first() {
        Some(digit) => digit.saturating_sub(b'0') as usize,
        None => 0,
    }
}

fn set(list: &mut Text, at: usize, text: &[u8]) {
    if let (Some(place), Some(item)) = (list.get_mut(at), text.last()) {
        *place = *item;
    }
}

fn remake(alloc: Global, list: &mut Text) {
    let own = mem::replace(list, Text::new(alloc));
    *list = Seq::from_vec(own.into_vec());
}

/// Puts the list into a box and takes it out; nothing is left where the box is short.
fn put_into_box(alloc: Global, list: &mut Text) -> Result<(), Memory> {
    let boxed = Boxed::new(alloc, mem::replace(list, Text::new(alloc)))?;
    let inside = Text::from_slice(alloc, boxed.get().as_slice())?;
    let out = boxed.into_inner();
    if inside.as_slice() == out.as_slice() {
        *list = out;
    }
    Ok(())
}

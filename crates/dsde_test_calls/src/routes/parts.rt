//! What words of a line tell.

use crate::names::name_of;
use dsde_bank::Handle;
use dsde_language::ViaId;
use dsde_lists::Memory;
use dsde_structure::{End, Link, Part, Via};
use dsde_values::{Name, Seq};
use std::alloc::Global;

/// The word of this number of a line.
pub(crate) fn word(words: &str, index: usize) -> &str {
    words.split_whitespace().nth(index).unwrap_or("")
}

pub(crate) fn number(words: &str, index: usize) -> u64 {
    word(words, index).parse::<u64>().unwrap_or(0)
}

/// The handle of a birth.
pub(crate) fn handle_of(birth: u64) -> Handle {
    Handle {
        birth,
        slot: (birth % 7) as usize,
    }
}

/// Adds the names that words spell; whether there was memory for them.
pub(crate) fn add_names(alloc: Global, words: &str, names: &mut Seq<Name>) -> bool {
    let mut held = true;
    for word in words.split_whitespace() {
        match name_of(alloc, word) {
            Ok(name) => held &= names.push(name).is_ok(),
            Err(_) => held = false,
        }
    }
    held
}

/// The part that a word names: `net`, `exec` or a component.
fn part(alloc: Global, word: &str) -> Result<Part, Memory> {
    match word {
        "net" => Ok(Part::Net),
        "exec" => Ok(Part::Boss),
        _ => match name_of(alloc, word) {
            Ok(name) => Ok(Part::Kid(name)),
            Err(memory) => Err(memory),
        },
    }
}

/// The link from a part's port to another's, with its translation, if one is told.
pub(crate) fn link(alloc: Global, words: &str) -> Result<Link, Memory> {
    match (part(alloc, word(words, 0)), part(alloc, word(words, 2))) {
        (Ok(from), Ok(to)) => Ok(Link {
            from: End {
                part: from,
                port: port(words, 1),
            },
            to: End {
                part: to,
                port: port(words, 3),
            },
            via: via(words),
        }),
        _ => Err(Memory),
    }
}

fn port(words: &str, index: usize) -> u32 {
    (number(words, index) % 2) as u32
}

/// The translation that is told behind a link, if one is.
fn via(words: &str) -> Option<Via> {
    if word(words, 4).is_empty() {
        return None;
    }
    Some(Via {
        id: ViaId((number(words, 4) % 100) as u32),
        key: None,
    })
}

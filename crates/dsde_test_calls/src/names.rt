//! Names: their order.

use crate::calls::Answer;
use dsde_values::{Memory, Name, Stem, compare_names};
use std::alloc::Global;
use std::cmp::Ordering;

/// How many of the names that are kept come before this one, which is kept too.
pub(crate) fn keep(alloc: Global, names: &mut Vec<Name>, word: &str) -> Result<Answer, Memory> {
    let name = copy_of(alloc, word)?;
    let count = count_before(names, &name);
    names.push(name)?;
    Ok(Answer::Number(count))
}

/// A copy of the name that a word spells.
fn copy_of(alloc: Global, word: &str) -> Result<Name, Memory> {
    let name = name_of(alloc, word)?;
    name.copy(alloc)
}

/// The name that a word spells.
pub(crate) fn name_of(alloc: Global, word: &str) -> Result<Name, Memory> {
    let (stem, index) = word.split_once('[').unwrap_or((word, ""));
    let index = index.split_once(']').unwrap_or((index, "")).0;
    Ok(Name {
        stem: Stem::from_slice(alloc, stem.as_bytes())?,
        index: index.parse::<u64>().ok(),
    })
}

/// How many of the names come before this one, as both ways to compare them say.
fn count_before(names: &[Name], name: &Name) -> u64 {
    let mut count = 0u64;
    for other in names {
        if are_so(other, name, Ordering::Less)
            && are_so(name, other, Ordering::Greater)
            && are_so(other, other, Ordering::Equal)
        {
            count = count.saturating_add(1);
        }
    }
    count
}

/// Whether two names are ordered so, and are the same exactly where they are equal, as each call
/// says.
fn are_so(name: &Name, other: &Name, order: Ordering) -> bool {
    compare_names(name, other) == order
        && name.cmp(other) == order
        && name.is_same(other) == order.is_eq()
        && (name == other) == order.is_eq()
}

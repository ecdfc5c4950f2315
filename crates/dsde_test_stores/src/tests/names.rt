//! Tables of items that are found by name.

use crate::tests::text;
use dsde_names::Names;
use dsde_values::Text;
use std::alloc::Global;

/// Adds each front of some bytes, the empty one first, and answers how many of these names were new.
fn insert_fronts(alloc: Global, names: &mut Names<Text>, bytes: &[u8]) -> usize {
    let mut added = 0usize;
    for size in 0..=bytes.len() {
        if let Ok(name) = text(alloc, &bytes[..size])
            && let Ok(true) = names.insert(name)
        {
            added = added.saturating_add(1);
        }
    }
    added
}

/// Adds a name that is not there, and answers whether that succeeded.
fn push(alloc: Global, names: &mut Names<Text>, name: &[u8]) -> bool {
    match text(alloc, name) {
        Ok(own) if !names.has(own.as_slice()) => names.push(own).is_ok(),
        _ => false,
    }
}

/// Whether a name has this number, as each call says that looks for it.
fn has_number(names: &Names<Text>, name: &[u8], number: usize) -> bool {
    let (Some((at, whole)), Some(item)) = (names.get_full(name), names.get(name)) else {
        return false;
    };
    let Some(there) = names.at(number) else {
        return false;
    };
    at == number
        && whole.as_slice() == name
        && item.as_slice() == name
        && there.as_slice() == name
        && matches!(names.number_of(name), Some(same) if same == number)
        && names.has(name)
}

/// How many fronts of some bytes have their own length as their number.
fn found(names: &Names<Text>, bytes: &[u8]) -> usize {
    let mut found = 0usize;
    for size in 0..=bytes.len() {
        if has_number(names, &bytes[..size], size) {
            found = found.saturating_add(1);
        }
    }
    found
}

/// Whether names have the numbers in which they came, also where they come again, and once those
/// behind the first are taken out.
fn are_found(alloc: Global, names: &mut Names<Text>) -> bool {
    let are_new = insert_fronts(alloc, names, b"abc") == 4
        && insert_fronts(alloc, names, b"abcd") == 1
        && found(names, b"abcde") == 5;
    names.truncate(1);
    are_new
        && found(names, b"abcd") == 1
        && push(alloc, names, b"ab")
        && insert_fronts(alloc, names, b"ab") == 1
        && has_number(names, b"ab", 1)
        && has_number(names, b"a", 2)
        && names.len() == 3
        && names.as_slice().len() == 3
}

#[test]
fn names_are_found_where_they_came(rt: HostRuntime) {
    assert!(rt; are_found(rt.alloc(), &mut Names::new(rt.alloc())));
}

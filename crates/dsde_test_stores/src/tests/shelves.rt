//! Shelves in memory.

use dsde_io::{MemoryShelf, Shelf, ShelfEnd, SureShelf, has_distinct_names};
use dsde_values::Seq;
use std::alloc::Global;

fn letter(end: ShelfEnd) -> u8 {
    match end {
        ShelfEnd::Absent => b'?',
        ShelfEnd::TooLong => b'>',
        ShelfEnd::Failed => b'!',
        ShelfEnd::Memory => b'-',
    }
}

/// `+` where the bytes were stored, or a letter that says why not.
pub fn store<S: Shelf>(alloc: Global, shelf: &mut S, name: &str, bytes: &[u8]) -> u8 {
    match shelf.store(alloc, name, bytes) {
        Ok(()) => b'+',
        Err(end) => letter(end),
    }
}

/// `+` where these bytes were loaded, `=` where others were, or a letter that says why none were.
pub fn load<S: Shelf>(alloc: Global, shelf: &mut S, name: &str, limit: u64, wanted: &[u8]) -> u8 {
    match shelf.load(alloc, name, limit) {
        Ok(bytes) if bytes.as_slice() == wanted => b'+',
        Ok(_) => b'=',
        Err(end) => letter(end),
    }
}

/// Whether a shelf, of which the first and the fourth call may fail, holds what is stored.
fn holds<S: Shelf>(alloc: Global, shelf: &mut S, failing: bool) -> bool {
    let end = if failing { b'!' } else { b'+' };
    store(alloc, shelf, "new", b"") == end
        && store(alloc, shelf, "save", b"f") == b'+'
        && store(alloc, shelf, "save", b"abc") == b'+'
        && load(alloc, shelf, "save", 3, b"abc") == end
        && load(alloc, shelf, "save", 3, b"abc") == b'+'
        && load(alloc, shelf, "save", 2, b"abc") == b'>'
        && load(alloc, shelf, "sav", 9, b"abc") == b'?'
        && load(alloc, shelf, "new", 0, b"") == if failing { b'?' } else { b'+' }
}

/// Whether that is so of an empty shelf whose calls never fail.
fn is_sure(alloc: Global) -> bool {
    let contents = Seq::new(alloc);
    if !has_distinct_names(contents.as_slice()) {
        return false;
    }
    let mut shelf = SureShelf::new(contents);
    holds(alloc, &mut shelf, false)
        && shelf.calls() == 8
        && shelf.contents().len() == 2
        && has_distinct_names(shelf.contents().as_slice())
}

#[test]
fn a_sure_shelf_holds_what_is_stored(rt: HostRuntime) {
    assert!(rt; is_sure(rt.alloc()));
}

/// The same of an empty shelf whose calls of these numbers fail.
fn is_failing(alloc: Global, failing: &[u64]) -> bool {
    let contents = Seq::new(alloc);
    let Ok(failing) = Seq::from_slice(alloc, failing) else {
        return false;
    };
    if !has_distinct_names(contents.as_slice()) {
        return false;
    }
    let mut shelf = MemoryShelf::new(contents, failing);
    holds(alloc, &mut shelf, true) && shelf.calls() == 8 && shelf.contents().len() == 1
}

#[test]
fn a_shelf_fails_as_told(rt: HostRuntime) {
    assert!(rt; is_failing(rt.alloc(), &[4, 1]));
}

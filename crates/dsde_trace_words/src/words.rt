//! Numbers, paths and places, and what stands before and behind them.

ghost use Rattle.std.specs.Prelude.{◌≡◌, ◌≢◌, ◌==◌, ◌++◌, ℕ, List, decimal, IfOk, IfSome, IfNone};
ghost use Rattle.std.specs.List.{position};
ghost use Rattle.dsde_values.specs.Path.{IsPath, path_text};
ghost use Rattle.dsde_trace_words.specs.Words.{Cuts, Inverts, IsCount, IsPlace, IsSmall, is_executive, place_text};

use dsde_input_parser::space_at;
use dsde_values::{Memory, Path, ReadPath, decimal_of, read_path};
use std::alloc::Global;

/// What stands behind a front of a text, if that stands there.
pub fn behind<'a>(text: &'a [u8], front: &[u8]) -> Option<&'a [u8]>
    ensures some { IfSome result (λ rest. text.now ≡ front.now ++ rest.now) }
    ensures none { IfNone result ((rest : List ℕ) → text.now ≢ front.now ++ rest) }
{
    match text.strip_prefix(front) {
        Some(rest) => Some(rest),
        None => None,
    }
}

/// What stands before the first space of a text, and what stands behind it; `None` exactly where it
/// has no space.
pub fn cut(text: &[u8]) -> Option<(&[u8], &[u8])>
    ensures { Cuts 32 text.now result }
{
    match space_at(text) {
        Some(place) => Some((&text[..place], &text[place + 1..])),
        None => None,
    }
}

/// What stands before the first colon of a text, and what stands behind it.
fn cut_colon(text: &[u8]) -> Option<(&[u8], &[u8])>
    ensures { Cuts 58 text.now result }
{
    match colon_at(text) {
        Some(place) => Some((&text[..place], &text[place + 1..])),
        None => None,
    }
}

/// Where the first colon stands.
fn colon_at(text: &[u8]) -> Option<usize>
    ensures { result ≡ position (λ byte. byte == 58) text.now }
{
    text.iter().position(|byte| *byte == b':')
}

/// The path that a text is.
pub fn path_of(alloc: Global, text: &[u8]) -> Result<Option<Path>, Memory>
    ensures { IfOk result (Inverts IsPath path_text text.now) }
{
    match read_path(alloc, text) {
        Ok(path) => Ok(Some(path)),
        Err(ReadPath::NotAPath) => Ok(None),
        Err(ReadPath::Memory) => Err(Memory),
    }
}

/// The number of 64 bits that a text is.
pub fn number_of(text: &[u8]) -> Option<u64>
    ensures { Inverts IsCount decimal text.now result }
{
    match decimal_of(text) {
        Some(number) => Some(number),
        None => None,
    }
}

/// The number of 32 bits that a text is.
fn small_of(text: &[u8]) -> Option<u32>
    ensures { Inverts IsSmall decimal text.now result }
{
    match number_of(text) {
        Some(number) if number <= u64::from(u32::MAX) => Some(number as u32),
        _ => None,
    }
}

/// The line and the column that a text is, `LINE:COLUMN`.
pub fn place_of(text: &[u8]) -> Option<(u32, u32)>
    ensures { Inverts IsPlace place_text text.now result }
{
    let Some((line, column)) = cut_colon(text) else {
        return None;
    };
    let Some(line) = small_of(line) else {
        return None;
    };
    match small_of(column) {
        Some(column) => Some((line, column)),
        None => None,
    }
}

/// Whether a path is an executive's: its last name is `exec`.
pub fn is_executive(path: &Path) -> bool
    ensures { result ≡ is_executive path.now }
{
    match path.names.as_slice().last() {
        Some(name) => name.is_executive(),
        None => false,
    }
}

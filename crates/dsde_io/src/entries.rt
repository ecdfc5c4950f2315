//! The names and bytes on a shelf in memory.

ghost use Rattle.std.specs.Prelude.{◌≡◌, ◌≢◌, ◌<◌, ◌≤◌, ◌↔◌, Some, option_copied, length, slice_index_or, slice_set, IsTrue, IfOk, OnOk, OnErr, IfSome, IfNone, IsSomeAnd, IsErrOf};
ghost use Rattle.dsde_io.specs.Stored.{bytes_under, with_bytes, AreDistinct, IsPlaceOf};

use crate::{ShelfEnd, Stored};
use dsde_values::{Memory, Seq, Text};
use std::alloc::Global;

/// Whether no two entries have one name, as a shelf in memory requires.
pub fn has_distinct_names(contents: &[Stored]) -> bool
    ensures { IsTrue result ↔ AreDistinct contents.now }
{
    for (place, stored) in contents.iter().enumerate() {
        if place_of(&contents[..place], stored.name.as_slice()).is_some() {
            return false;
        }
    }
    true
}

/// The place of the first entry of that name.
fn place_of(contents: &[Stored], name: &[u8]) -> Option<usize>
    ensures found { IfSome result (IsPlaceOf contents.now name.now) }
    ensures none { IfNone result (bytes_under contents.now name.now ≡ None) }
{
    for (place, stored) in contents.iter().enumerate() {
        if stored.name.as_slice() == name {
            return Some(place);
        }
    }
    None
}

/// The bytes under a name.
fn bytes_of<'a>(contents: &'a [Stored], name: &[u8]) -> Option<&'a [u8]>
    ensures { option_copied result ≡ bytes_under contents.now name.now }
{
    match place_of(contents, name) {
        Some(place) => Some(contents[place].bytes.as_slice()),
        None => None,
    }
}

/// A copy of the bytes under a name, at most `limit` of them.
pub(crate) fn copy_of(
    alloc: Global,
    contents: &[Stored],
    name: &[u8],
    limit: u64,
) -> Result<Text, ShelfEnd>
    ensures told { IfOk result (λ bytes. bytes_under contents.now name.now ≡ Some bytes) }
    ensures within { IfOk result (λ bytes. length bytes ≤ limit) }
    ensures absent { IsErrOf result ShelfEnd.Absent → bytes_under contents.now name.now ≡ None }
    ensures too_long { IsErrOf result ShelfEnd.TooLong
        → IsSomeAnd (bytes_under contents.now name.now) (λ bytes. limit < length bytes) }
    ensures not_failed { result ≢ Err ShelfEnd.Failed }
{
    let Some(bytes) = bytes_of(contents, name) else {
        return Err(ShelfEnd::Absent);
    };
    if bytes.len() as u64 > limit {
        return Err(ShelfEnd::TooLong);
    }
    Ok(Text::from_slice(alloc, bytes)?)
}

/// Puts a copy of the bytes under a name, in place of what is there. Without memory nothing changes.
pub(crate) fn put(
    alloc: Global,
    contents: &mut Seq<Stored>,
    name: &[u8],
    bytes: &[u8],
) -> Result<(), Memory>
    ensures ok { OnOk result (contents.new ≡ with_bytes contents.old name.now bytes.now) }
    ensures err { OnErr result (contents.new ≡ contents.old) }
{
    let bytes = Text::from_slice(alloc, bytes)?;
    match place_of(contents.as_slice(), name) {
        Some(place) => {
            replace(contents, place, bytes);
            Ok(())
        }
        None => {
            let name = Text::from_slice(alloc, name)?;
            contents.push(Stored { name, bytes })
        }
    }
}

/// Replaces the bytes of an entry.
fn replace(contents: &mut Seq<Stored>, place: usize, bytes: Text)
    requires { place < length contents.old }
    ensures { (d : Stored) → contents.new
        ≡ slice_set contents.old place (record (slice_index_or contents.old place d) { bytes = bytes }) }
{
    if let Some(stored) = contents.get_mut(place) {
        stored.bytes = bytes;
    }
}

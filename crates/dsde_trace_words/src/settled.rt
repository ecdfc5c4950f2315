//! A state, and when it is left.

ghost use Rattle.std.specs.Prelude.{◌≡◌, IfOk};
ghost use Rattle.dsde_values.specs.Value.{IsLawful};
ghost use Rattle.dsde_trace_words.specs.Words.{Inverts, IsSettled, IsWhen, settled_text, when_text};

use crate::words::{behind, number_of};
use dsde_values::{Field, Memory, ReadValue, Types, Values, When, read_fields};
use std::alloc::Global;

/// The time that a text is: a number, or `never`.
fn when_of(text: &[u8]) -> Option<When>
    ensures { Inverts IsWhen when_text text.now result }
{
    if text == b"never".as_slice() {
        return Some(When::Never);
    }
    match number_of(text) {
        Some(time) => Some(When::At(time)),
        None => None,
    }
}

/// The values of these state variables that a text is, and when the state is left:
/// `{f: v, g: w} next T`. The table of types is lawful.
pub fn settled_of(
    alloc: Global,
    text: &[u8],
    states: &[Field],
    types: &Types,
) -> Result<Option<(Values, When)>, Memory>
    requires { IsLawful types.now }
    ensures { IfOk result (Inverts (IsSettled states.now types.now) (settled_text states.now types.now) text.now) }
{
    let Some(rest) = behind(text, b"{") else {
        return Ok(None);
    };
    let (state, size) = match read_fields(alloc, rest, states, types) {
        Ok(found) => found,
        Err(ReadValue::NotAValue) => return Ok(None),
        Err(ReadValue::Memory) => return Err(Memory),
    };
    let Some(time) = behind(&rest[size..], b" next ") else {
        return Ok(None);
    };
    match when_of(time) {
        Some(next) => Ok(Some((state, next))),
        None => Ok(None),
    }
}

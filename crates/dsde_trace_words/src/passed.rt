//! A value at a port.

ghost use Rattle.std.specs.Prelude.{◌≡◌, ◌++◌, codes, IfOk};
ghost use Rattle.dsde_values.specs.Value.{HasType, IsLawful, spelling};
ghost use Rattle.dsde_trace_words.specs.Words.{Finds, Inverts, IsPassed, NoneBefore, Precedes, Spells, passed_text};

use crate::words::behind;
use dsde_values::{Field, Memory, ReadValue, Ty, Types, Value, read_value};
use std::alloc::Global;

/// The value of a type that a text is.
fn value_of(alloc: Global, text: &[u8], ty: &Ty, types: &Types) -> Result<Option<Value>, Memory>
    requires { IsLawful types.now }
    ensures { IfOk result (Inverts (λ value. HasType types.now value ty.now) (spelling types.now) text.now) }
{
    match read_value(alloc, text, ty, types) {
        Ok((value, size)) => {
            if size < text.len() {
                return Ok(None);
            }
            Ok(Some(value))
        }
        Err(ReadValue::NotAValue) => Ok(None),
        Err(ReadValue::Memory) => Err(Memory),
    }
}

/// The value at this port that a text is, behind the port's name and a space.
fn value_at(
    alloc: Global,
    text: &[u8],
    port: &Field,
    types: &Types,
) -> Result<Option<Value>, Memory>
    requires { IsLawful types.now }
    ensures { IfOk result (Inverts (λ value. HasType types.now value port.now.ty) (λ value. port.now.name ++ (codes " " ++ spelling types.now value)) text.now) }
{
    let Some(rest) = behind(text, port.name.as_slice()) else {
        return Ok(None);
    };
    let Some(rest) = behind(rest, b" ") else {
        return Ok(None);
    };
    value_of(alloc, rest, &port.ty, types)
}

/// The port and the value at it that a text is, `PORT VALUE`; of several ports of that name the first
/// one. The table of types is lawful.
pub fn passed_of(
    alloc: Global,
    text: &[u8],
    ports: &[Field],
    types: &Types,
) -> Result<Option<(u32, Value)>, Memory>
    requires { IsLawful types.now }
    ensures { IfOk result (Finds (Precedes NoneBefore) (Spells (IsPassed ports.now types.now) (passed_text ports.now types.now) text.now)) }
{
    for index in 0..ports.len() {
        let Ok(port) = u32::try_from(index) else {
            return Ok(None);
        };
        if let Some(value) = value_at(alloc, text, &ports[index], types)? {
            return Ok(Some((port, value)));
        }
    }
    Ok(None)
}

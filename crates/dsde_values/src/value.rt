//! Values, their equality and their copies.

ghost use Rattle.std.specs.Prelude.{◌≡◌, ◌↔◌, IsTrue, IfOk};

use dsde_lists::{Boxed, Memory, Seq};
use std::alloc::Global;

/// A list of values.
pub type Values = Seq<Value>;

/// A value. An enum's has the numbers of the enum and of the variant, a record's that of the
/// record and its fields in their order.
#[derive(Debug, Drop)]
pub enum Value {
    /// A whole number.
    Int(i64),
    Bool(bool),
    Enum(u32, u32),
    Rec(u32, Values),
    List(Values),
    /// An option without a value.
    Nothing,
    /// An option with this value.
    Some(Boxed<Value>),
}

/// Whether two values are equal.
#[cycle(equality)]
pub fn equal(value: &Value, other: &Value) -> bool
    ensures { IsTrue result ↔ (value.now ≡ other.now) }
{
    match (value, other) {
        (Value::Int(number), Value::Int(same)) => number == same,
        (Value::Bool(truth), Value::Bool(same)) => truth == same,
        (Value::Enum(number, variant), Value::Enum(own, same)) => {
            number == own && variant == same
        }
        (Value::Rec(number, parts), Value::Rec(own, same)) => {
            number == own && are_equal(parts.as_slice(), same.as_slice())
        }
        (Value::List(items), Value::List(same)) => are_equal(items.as_slice(), same.as_slice()),
        (Value::Nothing, Value::Nothing) => true,
        (Value::Some(inner), Value::Some(same)) => equal(inner.get(), same.get()),
        _ => false,
    }
}

/// Whether two lists of values are equal.
#[cycle(equality)]
pub fn are_equal(values: &[Value], others: &[Value]) -> bool
    ensures { IsTrue result ↔ (values.now ≡ others.now) }
{
    if values.len() != others.len() {
        return false;
    }
    for (value, other) in values.iter().zip(others) {
        if !equal(value, other) {
            return false;
        }
    }
    true
}

/// A value equal to this one. A number and a truth value are copied where the call stands.
#[cycle(copying)]
#[inline(always)]
pub fn copy_value(alloc: Global, value: &Value) -> Result<Value, Memory>
    ensures { IfOk result (λ copy. copy ≡ value.now) }
{
    match value {
        Value::Int(number) => Ok(Value::Int(*number)),
        Value::Bool(truth) => Ok(Value::Bool(*truth)),
        _ => copy_any(alloc, value),
    }
}

/// The same, by the way that all values can go.
#[cycle(copying)]
#[inline(never)]
fn copy_any(alloc: Global, value: &Value) -> Result<Value, Memory>
    ensures { IfOk result (λ copy. copy ≡ value.now) }
{
    Ok(match value {
        Value::Int(number) => Value::Int(*number),
        Value::Bool(truth) => Value::Bool(*truth),
        Value::Enum(number, variant) => Value::Enum(*number, *variant),
        Value::Rec(number, parts) => Value::Rec(*number, copy_values(alloc, parts.as_slice())?),
        Value::List(items) => Value::List(copy_values(alloc, items.as_slice())?),
        Value::Nothing => Value::Nothing,
        Value::Some(inner) => Value::Some(Boxed::new(alloc, copy_value(alloc, inner.get())?)?),
    })
}

/// A list equal to this one.
#[cycle(copying)]
pub fn copy_values(alloc: Global, values: &[Value]) -> Result<Values, Memory>
    ensures { IfOk result (λ copies. copies ≡ values.now) }
{
    let mut copies = Seq::with_room(alloc, values.len())?;
    for value in values {
        copies.push(copy_value(alloc, value)?)?;
    }
    Ok(copies)
}

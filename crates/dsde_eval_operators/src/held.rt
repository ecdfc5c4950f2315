//! What a value holds, where it is of the wanted kind.

ghost use Rattle.std.specs.Prelude.{◌≡◌, ◌≢◌, Ok, Err};
ghost use Rattle.std.specs.Option.{option_copied};
ghost use Rattle.dsde_language.specs.Outcome.{Stuck, int_of, truth_of, items_of, option_of, parts_of};

use dsde_values::{Seq, Value};

/// The whole number that a value is.
pub fn int_of(value: &Value) -> i64
    requires { int_of value.now ≢ Err Stuck }
    ensures { int_of value.now ≡ Ok result }
{
    match value {
        Value::Int(number) => *number,
        _ => unreachable!(),
    }
}

/// The truth that a value is.
pub fn truth_of(value: &Value) -> bool
    requires { truth_of value.now ≢ Err Stuck }
    ensures { truth_of value.now ≡ Ok result }
{
    match value {
        Value::Bool(truth) => *truth,
        _ => unreachable!(),
    }
}

/// The items of a list, taken out of it.
pub fn items_of(value: Value) -> Seq<Value>
    requires { items_of value ≢ Err Stuck }
    ensures { items_of value ≡ Ok result }
{
    match value {
        Value::List(items) => items,
        _ => unreachable!(),
    }
}

/// The items of a list, where they are.
pub fn list_of(value: &Value) -> &Seq<Value>
    requires { items_of value.now ≢ Err Stuck }
    ensures { items_of value.now ≡ Ok result.now }
{
    match value {
        Value::List(items) => items,
        _ => unreachable!(),
    }
}

/// The values of a record's fields, taken out of it.
pub fn parts_of(value: Value) -> Seq<Value>
    requires { parts_of value ≢ Err Stuck }
    ensures { parts_of value ≡ Ok result }
{
    match value {
        Value::Rec(_, parts) => parts,
        _ => unreachable!(),
    }
}

/// The values of a record's fields, where they are.
pub fn parts_in(value: &Value) -> &Seq<Value>
    requires { parts_of value.now ≢ Err Stuck }
    ensures { parts_of value.now ≡ Ok result.now }
{
    match value {
        Value::Rec(_, parts) => parts,
        _ => unreachable!(),
    }
}

/// The value of an option, taken out of it; `None` for one without a value.
pub fn option_of(value: Value) -> Option<Value>
    requires { option_of value ≢ Err Stuck }
    ensures { option_of value ≡ Ok result }
{
    match value {
        Value::Nothing => None,
        Value::Some(inner) => Some(inner.into_inner()),
        _ => unreachable!(),
    }
}

/// The value of an option, where it is; `None` for one without a value.
pub fn held_in(value: &Value) -> Option<&Value>
    requires { option_of value.now ≢ Err Stuck }
    ensures { option_of value.now ≡ Ok (option_copied result) }
{
    match value {
        Value::Nothing => None,
        Value::Some(inner) => Some(inner.get()),
        _ => unreachable!(),
    }
}

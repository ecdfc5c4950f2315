//! Builtins of one argument, of two and of three.

ghost use Rattle.std.specs.Prelude.{◌≡◌, ◌≢◌, pos, length, Err, IfOk, IfErr};
ghost use Rattle.dsde_faults.specs.declared.end.EvalEnd.TheVariants as eval_end;
ghost use Rattle.dsde_values.specs.declared.value.Value.TheVariants as value;
ghost use Rattle.dsde_language.specs.Outcome.{Stuck, Gives};
ghost use Rattle.dsde_language.specs.MeaningOperators.{of_one, of_two, of_three};

use crate::held::{held_in, int_of, items_of, list_of};
use crate::lists::{first_items, later_items, listed, pushed, ranged, replaced};
use dsde_faults::EvalEnd;
use dsde_language::Builtin;
use dsde_values::{Seq, Value};
use std::alloc::Global;

/// What a builtin of one argument makes of it: `len` and `is_some`. There is no fault.
pub fn of_one(which: Builtin, value: &Value) -> Result<Value, EvalEnd>
    requires { of_one which value.now ≢ Err Stuck }
    ensures { Gives (of_one which value.now) result }
{
    match which {
        Builtin::Len => counted(list_of(value)),
        Builtin::IsSome => Ok(Value::Bool(held_in(value).is_some())),
        _ => unreachable!(),
    }
}

/// The number of items. A list of 2^63 items or more is in no memory.
fn counted(items: &Seq<Value>) -> Result<Value, EvalEnd>
    ensures ok { IfOk result (λ number. number ≡ value.Int (pos (length items.now))) }
    ensures err { IfErr result (λ end. end ≡ eval_end.Memory) }
{
    match i64::try_from(items.len()) {
        Ok(number) => Ok(Value::Int(number)),
        Err(_) => Err(EvalEnd::Memory),
    }
}

/// What a builtin of two arguments makes of them: `range`, `min`, `max`, `push`, `take` and `skip`.
/// The fault `RangeTooLong`, at the builtin's place, comes where a list had more than 65,536 items.
pub fn of_two(
    alloc: Global,
    which: Builtin,
    at: u32,
    one: Value,
    two: Value,
) -> Result<Value, EvalEnd>
    requires { of_two which at one two ≢ Err Stuck }
    ensures { Gives (of_two which at one two) result }
{
    match which {
        Builtin::Range => ranged(alloc, at, int_of(&one), int_of(&two)),
        Builtin::Min => Ok(Value::Int(int_of(&one).min(int_of(&two)))),
        Builtin::Max => Ok(Value::Int(int_of(&one).max(int_of(&two)))),
        Builtin::Push => listed(at, pushed(items_of(one), two)?),
        Builtin::Take => Ok(Value::List(first_items(items_of(one), int_of(&two)))),
        Builtin::Skip => Ok(Value::List(later_items(items_of(one), int_of(&two)))),
        _ => unreachable!(),
    }
}

/// What a builtin of three arguments makes of them: `put`. The fault `IndexOutOfRange`, at the
/// builtin's place, comes where the list has no item at the index.
pub fn of_three(
    which: Builtin,
    at: u32,
    one: Value,
    two: Value,
    three: Value,
) -> Result<Value, EvalEnd>
    requires { of_three which at one two three ≢ Err Stuck }
    ensures { Gives (of_three which at one two three) result }
{
    match which {
        Builtin::Put => replaced(at, items_of(one), int_of(&two), three),
        _ => unreachable!(),
    }
}

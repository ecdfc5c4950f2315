//! Operators of one and of two values.

ghost use Rattle.std.specs.Prelude.{◌≡◌, ◌≢◌, Ok, Err};
ghost use Rattle.dsde_language.specs.declared.operator.Binary.TheVariants as binary;
ghost use Rattle.dsde_language.specs.Outcome.{Stuck, Gives};
ghost use Rattle.dsde_language.specs.MeaningOperators.{same_value, operated, denied, negated, unwrapped};

use crate::held::{int_of, option_of, truth_of};
use crate::lists::joined;
use crate::numbers::{
    capped_difference, capped_product, capped_sum, difference, product, quotient, remainder, sum,
};
use dsde_faults::{EvalEnd, FaultKind};
use dsde_language::Binary;
use dsde_values::{Value, equal};

/// Whether two values are equal.
fn is_same(value: &Value, other: &Value) -> bool
    ensures { result ≡ same_value value.now other.now }
{
    equal(value, other)
}

/// What an operator makes of the values on its two sides: `or` and `and` are none of these, since they
/// do not always look at the right side. The faults, at the operator's place, are those of the numbers
/// and of the lists: `Overflow`, `DivideByZero` and `RangeTooLong`.
pub fn operated(which: Binary, at: u32, left: Value, right: Value) -> Result<Value, EvalEnd>
    requires { operated which at left right ≢ Err Stuck }
    ensures { Gives (operated which at left right) result }
{
    match which {
        Binary::Join => joined(at, left, right),
        _ => operated_on(which, at, &left, &right),
    }
}

/// The same of values that are looked at, for all operators but that which joins lists.
pub fn operated_on(which: Binary, at: u32, left: &Value, right: &Value) -> Result<Value, EvalEnd>
    requires join { which ≢ binary.Join }
    requires stuck { operated which at left.now right.now ≢ Err Stuck }
    ensures { Gives (operated which at left.now right.now) result }
{
    match which {
        Binary::Or | Binary::And | Binary::Join => unreachable!(),
        Binary::Equal => Ok(Value::Bool(is_same(left, right))),
        Binary::NotEqual => Ok(Value::Bool(!is_same(left, right))),
        Binary::Less => Ok(Value::Bool(int_of(left) < int_of(right))),
        Binary::LessEqual => Ok(Value::Bool(int_of(left) <= int_of(right))),
        Binary::Greater => Ok(Value::Bool(int_of(left) > int_of(right))),
        Binary::GreaterEqual => Ok(Value::Bool(int_of(left) >= int_of(right))),
        Binary::Add => Ok(Value::Int(sum(at, int_of(left), int_of(right))?)),
        Binary::Sub => Ok(Value::Int(difference(at, int_of(left), int_of(right))?)),
        Binary::Mul => Ok(Value::Int(product(at, int_of(left), int_of(right))?)),
        Binary::Div => Ok(Value::Int(quotient(at, int_of(left), int_of(right))?)),
        Binary::Rem => Ok(Value::Int(remainder(at, int_of(left), int_of(right))?)),
        Binary::CapAdd => Ok(Value::Int(capped_sum(int_of(left), int_of(right)))),
        Binary::CapSub => Ok(Value::Int(capped_difference(int_of(left), int_of(right)))),
        Binary::CapMul => Ok(Value::Int(capped_product(int_of(left), int_of(right)))),
    }
}

/// `not`: the other truth.
pub fn denied(value: &Value) -> Value
    requires { denied value.now ≢ Err Stuck }
    ensures { denied value.now ≡ Ok result }
{
    Value::Bool(!truth_of(value))
}

/// The sign before a number; the fault `Overflow`, at the sign's place, for the least number.
pub fn negated(at: u32, value: &Value) -> Result<Value, EvalEnd>
    requires { negated at value.now ≢ Err Stuck }
    ensures { Gives (negated at value.now) result }
{
    Ok(Value::Int(difference(at, 0, int_of(value))?))
}

/// `!`: the value of an option; the fault `EmptyOption`, at the sign's place, where it has none.
pub fn unwrapped(at: u32, value: Value) -> Result<Value, EvalEnd>
    requires { unwrapped at value ≢ Err Stuck }
    ensures { Gives (unwrapped at value) result }
{
    match option_of(value) {
        Some(inner) => Ok(inner),
        None => Err(EvalEnd::Fault(FaultKind::EmptyOption, at)),
    }
}

//! What a body or a structure sees: values, each in its slot.

ghost use Rattle.std.specs.Prelude.{◌≡◌, ◌≢◌, ◌++◌, Some, Err, IfOk};
ghost use Rattle.dsde_language.specs.Outcome.{Stuck};
ghost use Rattle.dsde_language.specs.Flow.{why};
ghost use Rattle.dsde_language.specs.MeaningTables.{Flows, set_slot, state_of};
ghost use Rattle.dsde_values.specs.declared.value.Value.TheVariants as value;

use dsde_faults::EvalEnd;
use dsde_values::{Item, Memory, Seq, Value, Values, copy_values};
use std::alloc::Global;

/// Values with others behind them.
fn joined(values: Values, others: Values) -> Result<Values, Memory>
    ensures { IfOk result (λ all. all ≡ values ++ others) }
{
    let mut all = values.into_vec();
    let mut behind = others.into_vec();
    all.append(&mut behind)?;
    Ok(Seq::from_vec(all))
}

/// What a body or a structure sees: a copy of the arguments, and the state behind them.
pub fn slots_of(alloc: Global, args: &Values, state: Values) -> Result<Values, Memory>
    ensures { IfOk result (λ slots. slots ≡ args.now ++ state) }
{
    if args.len() == 0 {
        return Ok(state);
    }
    let args = copy_values(alloc, args.as_slice())?;
    joined(args, state)
}

/// Assigns a value to a slot.
pub(crate) fn set_slot(
    number: u32,
    value: Value,
    slots: &mut Seq<Value>,
    sends: &Seq<Item>,
) -> Result<(), EvalEnd>
    requires { why (set_slot number value (state_of slots.old sends.now)) ≢ Some Stuck }
    ensures flows { Flows (set_slot number value (state_of slots.old sends.now)) result slots.new sends.now }
    ensures sure { result ≢ Err EvalEnd.Memory }
{
    match slots.get_mut(number as usize) {
        Some(slot) => {
            *slot = value;
            Ok(())
        }
        None => unreachable!(),
    }
}

/// Assigns a number to a slot.
pub(crate) fn set_number(
    number: u32,
    own: i64,
    slots: &mut Seq<Value>,
    sends: &Seq<Item>,
) -> Result<(), EvalEnd>
    requires { why (set_slot number (value.Int own) (state_of slots.old sends.now)) ≢ Some Stuck }
    ensures flows { Flows (set_slot number (value.Int own) (state_of slots.old sends.now)) result slots.new sends.now }
    ensures sure { result ≢ Err EvalEnd.Memory }
{
    match slots.get_mut(number as usize) {
        Some(slot) => {
            write_number(slot, own);
            Ok(())
        }
        None => unreachable!(),
    }
}

/// Makes a value a number. One that is a number is written over.
fn write_number(place: &mut Value, own: i64)
    ensures { place.new ≡ value.Int own }
{
    match place {
        Value::Int(number) => *number = own,
        _ => *place = Value::Int(own),
    }
}

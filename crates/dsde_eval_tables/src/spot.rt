//! Where a value stands in the slots.

ghost use Rattle.std.specs.Prelude.{◌≡◌, ◌≢◌, Ok, Err, IfOk, slice_get};
ghost use Rattle.dsde_language.specs.Outcome.{Stuck, Gives, option_of, present};
ghost use Rattle.dsde_language.specs.MeaningOperators.{indexed};
ghost use Rattle.dsde_language.specs.MeaningTables.{field_at};
ghost use Rattle.dsde_eval_tables.specs.Spots.{stepped, reached, standing, further, found_in, found, field_standing, field_in, held_at, holding, unwrapped_at, indexed_at, one_at, Reaches, Holds, Steps};

use dsde_eval_short::given::eval_operators::{indexed, of_one, option_of, parts_of, place_in};
use dsde_faults::{EvalEnd, FaultKind};
use dsde_language::Builtin;
use dsde_values::{Memory, Seq, Value, copy_value};
use std::alloc::Global;

/// Where a value stands: a slot, and the steps inwards from its value. A step is the number of a
/// field or of an item; at an option it leads to what this holds.
#[derive(Drop)]
pub(crate) struct Spot {
    pub slot: u32,
    pub steps: Seq<usize>,
}

/// A value that was made, or the spot where it stands.
#[derive(Drop)]
pub(crate) enum Got {
    Own(Value),
    At(Spot),
}

/// The value one step inwards of a value.
fn step_in(own: &Value, step: usize) -> &Value
    requires { stepped own.now step ≢ Err Stuck }
    ensures { stepped own.now step ≡ Ok result.now }
{
    match own {
        Value::Rec(_, parts) => item(parts, step),
        Value::List(items) => item(items, step),
        Value::Some(inner) => inner.get(),
        _ => unreachable!(),
    }
}

/// The item at an index that there is.
fn item(items: &Seq<Value>, index: usize) -> &Value
    requires { present (slice_get items.now index) ≢ Err Stuck }
    ensures { present (slice_get items.now index) ≡ Ok result.now }
{
    match items.get(index) {
        Some(item) => item,
        None => unreachable!(),
    }
}

/// The value some steps inwards.
fn steps_in<'s>(own: &'s Value, steps: &Seq<usize>) -> &'s Value
    requires { reached steps.now own.now ≢ Err Stuck }
    ensures { reached steps.now own.now ≡ Ok result.now }
{
    let mut here = own;
    for step in steps.as_slice() {
        here = step_in(here, *step);
    }
    here
}

/// The value at a spot, where it stands.
#[tactic(auto, unfolding(crate::specs::Spots::standing))]
pub(crate) fn look<'s>(spot: &Spot, slots: &'s Seq<Value>) -> &'s Value
    requires { standing spot.now slots.now ≢ Err Stuck }
    ensures { standing spot.now slots.now ≡ Ok result.now }
{
    steps_in(item(slots, spot.slot as usize), &spot.steps)
}

/// The spot one step further inwards.
pub(crate) fn further(spot: Spot, step: usize) -> Result<Got, Memory>
    ensures { IfOk result (λ got. got ≡ Got.At (further spot step)) }
{
    let Spot { slot, mut steps } = spot;
    steps.push(step)?;
    Ok(Got::At(Spot { slot, steps }))
}

/// A copy of the value in a slot.
pub(crate) fn slot_copy(alloc: Global, number: u32, slots: &Seq<Value>) -> Result<Value, EvalEnd>
    requires { present (slice_get slots.now number) ≢ Err Stuck }
    ensures { Gives (present (slice_get slots.now number)) result }
{
    Ok(copy_value(alloc, item(slots, number as usize))?)
}

/// The value that was made, or a copy of the one at the spot.
pub(crate) fn taken(alloc: Global, got: Got, slots: &Seq<Value>) -> Result<Value, EvalEnd>
    requires { found_in got slots.now ≢ Err Stuck }
    ensures { Gives (found_in got slots.now) result }
{
    match got {
        Got::Own(own) => Ok(own),
        Got::At(spot) => Ok(copy_value(alloc, look(&spot, slots))?),
    }
}

/// What was found is there: a law, which does nothing.
#[tactic(auto, using(crate::proofs::Steps::laws))]
pub(crate) fn is_there(got: &Got, slots: &Seq<Value>)
    requires { found_in got.now slots.now ≢ Err Stuck }
    ensures { found_in got.now slots.now ≡ Ok (found got.now slots.now) }
{}

/// A field of a record that was made.
fn field_of(own: Value, number: u32) -> Value
    requires { field_at number own ≢ Err Stuck }
    ensures { field_at number own ≡ Ok result }
{
    let mut parts = parts_of(own).into_vec();
    parts.swap_remove(number as usize)
}

/// A field of a record at a spot stands one step further inwards: a law, which does nothing.
#[tactic(auto, using(crate::proofs::Steps::laws))]
fn field_stands(number: u32, spot: &Spot, slots: &Seq<Value>)
    requires { field_standing number spot.now slots.now ≢ Err Stuck }
    ensures { field_standing number spot.now slots.now ≡ standing (further spot.now number) slots.now }
{}

/// A field of a record: the value that was made, or where it stands.
pub(crate) fn field_in(number: u32, got: Got, slots: &Seq<Value>) -> Result<Got, EvalEnd>
    requires { field_in number got slots.now ≢ Err Stuck }
    ensures { Reaches (field_in number got slots.now) result slots.now }
{
    match got {
        Got::Own(own) => Ok(Got::Own(field_of(own, number))),
        Got::At(spot) => {
            field_stands(number, &spot, slots);
            Ok(further(spot, number as usize)?)
        }
    }
}

/// What an option holds; `None` for one without a value.
#[tactic(auto, using(crate::proofs::Steps::steps))]
pub(crate) fn held_of(got: Got, slots: &Seq<Value>) -> Result<Option<Got>, Memory>
    requires { held_at got slots.now ≢ Err Stuck }
    ensures { IfOk result (λ held. Holds (held_at got slots.now) held slots.now) }
{
    match got {
        Got::Own(own) => match option_of(own) {
            Some(inner) => Ok(Some(Got::Own(inner))),
            None => Ok(None),
        },
        Got::At(spot) => {
            if holds(look(&spot, slots)) {
                Ok(Some(further(spot, 0)?))
            } else {
                Ok(None)
            }
        }
    }
}

/// Whether an option holds a value.
fn holds(own: &Value) -> bool
    requires { option_of own.now ≢ Err Stuck }
    ensures { option_of own.now ≡ holding result own.now }
{
    match own {
        Value::Nothing => false,
        Value::Some(_) => true,
        _ => unreachable!(),
    }
}

/// What an option holds; the fault `EmptyOption` where it holds nothing.
pub(crate) fn inner_of(at: u32, got: Got, slots: &Seq<Value>) -> Result<Got, EvalEnd>
    requires { (unwrapped_at at got slots.now) ≢ Err Stuck }
    ensures { Reaches (unwrapped_at at got slots.now) result slots.now }
{
    match held_of(got, slots)? {
        Some(inner) => Ok(inner),
        None => Err(EvalEnd::Fault(FaultKind::EmptyOption, at)),
    }
}

/// The step to the item at an index of a list; the fault `IndexOutOfRange` where the list has no such
/// item. Memory never runs out.
fn step_to(at: u32, list: &Value, index: &Value) -> Result<usize, EvalEnd>
    requires { indexed at list.now index.now ≢ Err Stuck }
    ensures { Steps (indexed at list.now index.now) list.now result }
{
    place_in(at, list, index)
}

/// The item at an index of a list; the fault `IndexOutOfRange` where the list has no such item.
#[tactic(auto, using(crate::proofs::Steps::steps))]
pub(crate) fn item_of(
    alloc: Global,
    at: u32,
    got: Got,
    index: &Value,
    slots: &Seq<Value>,
) -> Result<Got, EvalEnd>
    requires { (indexed_at at got index.now slots.now) ≢ Err Stuck }
    ensures { Reaches (indexed_at at got index.now slots.now) result slots.now }
{
    match got {
        Got::Own(own) => Ok(Got::Own(indexed(alloc, at, &own, index)?)),
        Got::At(spot) => {
            let step = step_to(at, look(&spot, slots), index)?;
            Ok(further(spot, step)?)
        }
    }
}

/// What a builtin of one argument makes of it, which is not copied.
pub(crate) fn one_of(which: Builtin, got: Got, slots: &Seq<Value>) -> Result<Value, EvalEnd>
    requires { one_at which got slots.now ≢ Err Stuck }
    ensures { Gives (one_at which got slots.now) result }
{
    match got {
        Got::Own(own) => of_one(which, &own),
        Got::At(spot) => of_one(which, look(&spot, slots)),
    }
}

//! A list that is changed where it is.

ghost use Rattle.std.specs.Prelude.{◌≡◌, ◌≢◌, Ok, Err};
ghost use Rattle.dsde_language.specs.declared.operator.Builtin.TheVariants as builtin;
ghost use Rattle.dsde_language.specs.Outcome.{Stuck};
ghost use Rattle.dsde_language.specs.MeaningOperators.{joined, of_two, of_three};
ghost use Rattle.dsde_eval_short.specs.Changes.{Changes, made_by};

use crate::change::Which;
use dsde_eval_operators::{first_items, int_of, items_of, later_items, list_of};
use dsde_faults::{EvalEnd, FaultKind};
use dsde_values::{Seq, Value};
use std::mem;

/// The most items that a list may have.
const LONGEST: usize = 65_536;

/// Changes a list by one value. The fault `RangeTooLong` comes where it would have more than 65,536
/// items. After it, and where memory ran out, the list is as it was.
pub(crate) fn change_list(
    which: Which,
    at: u32,
    list: &mut Value,
    own: Value,
) -> Result<(), EvalEnd>
    requires { made_by which at list.old own ≢ Err Stuck }
    ensures { Changes (made_by which at list.old own) result list.old list.new }
{
    match which {
        Which::Push => push(at, list, own),
        Which::Take => {
            take(list, &own);
            Ok(())
        }
        Which::Skip => {
            skip(list, &own);
            Ok(())
        }
        Which::Join => join(at, list, own),
    }
}

/// Adds an item at the end; the fault `RangeTooLong` where there were more than 65,536 items.
fn push(at: u32, list: &mut Value, own: Value) -> Result<(), EvalEnd>
    requires { of_two builtin.Push at list.old own ≢ Err Stuck }
    ensures { Changes (of_two builtin.Push at list.old own) result list.old list.new }
{
    match list {
        Value::List(items) => {
            if items.len() >= LONGEST {
                return Err(EvalEnd::Fault(FaultKind::RangeTooLong, at));
            }
            items.push(own)?;
            Ok(())
        }
        _ => unreachable!(),
    }
}

/// Puts the items of another list behind; the fault `RangeTooLong` where there were more than 65,536.
fn join(at: u32, list: &mut Value, own: Value) -> Result<(), EvalEnd>
    requires { joined at list.old own ≢ Err Stuck }
    ensures { Changes (joined at list.old own) result list.old list.new }
{
    let others = items_of(own);
    if others.len() > LONGEST || list_of(list).len() > LONGEST - others.len() {
        return Err(EvalEnd::Fault(FaultKind::RangeTooLong, at));
    }
    match mem::replace(list, Value::Nothing) {
        Value::List(items) => {
            let mut all = items.into_vec();
            let mut rest = others.into_vec();
            let end = all.append(&mut rest);
            *list = Value::List(Seq::from_vec(all));
            if end.is_err() {
                return Err(EvalEnd::Memory);
            }
            Ok(())
        }
        _ => unreachable!(),
    }
}

/// Takes the first items, as many as the number says, or all, and leaves no others.
fn take(list: &mut Value, own: &Value)
    requires { of_two builtin.Take 0 list.old own.now ≢ Err Stuck }
    ensures { of_two builtin.Take 0 list.old own.now ≡ Ok list.new }
{
    let number = int_of(own);
    let items = items_of(mem::replace(list, Value::Nothing));
    *list = Value::List(first_items(items, number));
}

/// Takes the first items away, as many as the number says, or all.
fn skip(list: &mut Value, own: &Value)
    requires { of_two builtin.Skip 0 list.old own.now ≢ Err Stuck }
    ensures { of_two builtin.Skip 0 list.old own.now ≡ Ok list.new }
{
    let number = int_of(own);
    let items = items_of(mem::replace(list, Value::Nothing));
    *list = Value::List(later_items(items, number));
}

/// Replaces the item at an index; the fault `IndexOutOfRange` where there is none. After the fault the
/// list is as it was. Memory never runs out.
pub(crate) fn put(at: u32, list: &mut Value, index: &Value, own: Value) -> Result<(), EvalEnd>
    requires { of_three builtin.Put at list.old index.now own ≢ Err Stuck }
    ensures { Changes (of_three builtin.Put at list.old index.now own) result list.old list.new }
{
    match list {
        Value::List(items) => {
            let Ok(place) = usize::try_from(int_of(index)) else {
                return Err(EvalEnd::Fault(FaultKind::IndexOutOfRange, at));
            };
            match items.get_mut(place) {
                Some(item) => {
                    *item = own;
                    Ok(())
                }
                None => Err(EvalEnd::Fault(FaultKind::IndexOutOfRange, at)),
            }
        }
        _ => unreachable!(),
    }
}

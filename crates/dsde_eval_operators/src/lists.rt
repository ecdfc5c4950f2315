//! Lists of at most 65,536 items.

ghost use Rattle.std.specs.Prelude.{◌≡◌, ◌≢◌, ◌-ℤ◌, ◌++◌, [], ◌∷◌, take, drop, nat_le, Err, IfOk};
ghost use Rattle.dsde_language.specs.Outcome.{Stuck, Gives};
ghost use Rattle.dsde_language.specs.MeaningOperators.{listed, joined, item_at, indexed, count_of, numbers_from, ranged, replaced};
ghost use Rattle.dsde_eval_operators.specs.Lends.{Lends, Stands, StandsIn};

use crate::held::{int_of, items_of, list_of};
use dsde_faults::{EvalEnd, FaultKind};
use dsde_values::{Memory, Seq, Value, copy_value};
use std::alloc::Global;

/// The most items that a list may have.
const LONGEST: usize = 65_536;

/// A list of these items; the fault `RangeTooLong` where there are more than 65,536.
pub fn listed(at: u32, items: Seq<Value>) -> Result<Value, EvalEnd>
    ensures { Gives (listed at items) result }
{
    if items.len() <= LONGEST {
        Ok(Value::List(items))
    } else {
        Err(EvalEnd::Fault(FaultKind::RangeTooLong, at))
    }
}

/// The items of one list and then of another, which are moved.
fn append(items: Seq<Value>, others: Seq<Value>) -> Result<Seq<Value>, Memory>
    ensures { IfOk result (λ all. all ≡ items ++ others) }
{
    let mut all = items.into_vec();
    let mut rest = others.into_vec();
    all.append(&mut rest)?;
    Ok(Seq::from_vec(all))
}

/// One list behind another; the fault `RangeTooLong` where there are more than 65,536 items.
pub(crate) fn joined(at: u32, left: Value, right: Value) -> Result<Value, EvalEnd>
    requires { joined at left right ≢ Err Stuck }
    ensures { Gives (joined at left right) result }
{
    let items = items_of(left);
    let others = items_of(right);
    listed(at, append(items, others)?)
}

/// The place of an item by its index.
fn place_of(at: u32, items: &Seq<Value>, number: i64) -> Result<usize, EvalEnd>
    ensures { Stands items.now (item_at at items.now number) result }
{
    let Ok(index) = usize::try_from(number) else {
        return Err(EvalEnd::Fault(FaultKind::IndexOutOfRange, at));
    };
    match items.get(index) {
        Some(_) => Ok(index),
        None => Err(EvalEnd::Fault(FaultKind::IndexOutOfRange, at)),
    }
}

/// The place of the item that stands at an index of a list, counted from 0; the fault
/// `IndexOutOfRange` where the list has no such item.
pub fn place_in(at: u32, list: &Value, index: &Value) -> Result<usize, EvalEnd>
    requires { indexed at list.now index.now ≢ Err Stuck }
    ensures { StandsIn list.now (indexed at list.now index.now) result }
{
    place_of(at, list_of(list), int_of(index))
}

/// The item that stands at an index of a list, counted from 0, where it is; the fault
/// `IndexOutOfRange` where the list has no such item.
pub fn item_in<'a>(at: u32, list: &'a Value, index: &Value) -> Result<&'a Value, EvalEnd>
    requires { indexed at list.now index.now ≢ Err Stuck }
    ensures { Lends (indexed at list.now index.now) result }
{
    let place = place_in(at, list, index)?;
    match list_of(list).get(place) {
        Some(item) => Ok(item),
        None => unreachable!(),
    }
}

/// A copy of the item that stands at an index of a list, counted from 0; the fault `IndexOutOfRange`
/// where the list has no such item.
pub fn indexed(alloc: Global, at: u32, list: &Value, index: &Value) -> Result<Value, EvalEnd>
    requires { indexed at list.now index.now ≢ Err Stuck }
    ensures { Gives (indexed at list.now index.now) result }
{
    Ok(copy_value(alloc, item_in(at, list, index)?)?)
}

/// The first items of a list, as many as the number says, or all.
pub fn first_items(items: Seq<Value>, number: i64) -> Seq<Value>
    ensures { result ≡ take (count_of number) items }
{
    let mut items = items;
    items.truncate(count_of(number));
    items
}

/// The number of items, cut to 0.
fn count_of(number: i64) -> usize
    ensures { result ≡ count_of number }
{
    match usize::try_from(number) {
        Ok(count) => count,
        Err(_) => 0,
    }
}

/// The items of a list behind its first ones, as many as the number says; none, if there are not
/// more.
pub fn later_items(items: Seq<Value>, number: i64) -> Seq<Value>
    ensures { result ≡ drop (count_of number) items }
{
    let mut rest = items.into_vec();
    let gone = count_of(number).min(rest.len());
    let left = rest.len() - gone;
    rest.rotate_left(gone);
    rest.truncate(left);
    Seq::from_vec(rest)
}

/// A list with the item at an index replaced; the fault `IndexOutOfRange` where it has no such item.
pub(crate) fn replaced(
    at: u32,
    items: Seq<Value>,
    number: i64,
    item: Value,
) -> Result<Value, EvalEnd>
    ensures { Gives (replaced at items number item) result }
{
    let Ok(index) = usize::try_from(number) else {
        return Err(EvalEnd::Fault(FaultKind::IndexOutOfRange, at));
    };
    let mut items = items;
    match items.get_mut(index) {
        Some(place) => *place = item,
        None => return Err(EvalEnd::Fault(FaultKind::IndexOutOfRange, at)),
    }
    Ok(Value::List(items))
}

/// A list with one item more at its end.
pub(crate) fn pushed(items: Seq<Value>, item: Value) -> Result<Seq<Value>, Memory>
    ensures { IfOk result (λ all. all ≡ items ++ item ∷ []) }
{
    let mut all = items;
    all.push(item)?;
    Ok(all)
}

/// Whether there are at most 65,536 whole numbers from one on before another.
fn is_short(first: i64, end: i64) -> bool
    ensures { result ≡ nat_le (count_of (end -ℤ first)) 65536 }
{
    end.saturating_sub(first) <= 65_536
}

/// The whole numbers from one on, before another.
fn numbers_between(alloc: Global, first: i64, end: i64) -> Result<Seq<Value>, Memory>
    ensures { IfOk result (λ items. items ≡ numbers_from first (count_of (end -ℤ first))) }
{
    let mut items = Seq::new(alloc);
    for number in first..end {
        items.push(Value::Int(number))?;
    }
    Ok(items)
}

/// A list of the whole numbers from one on, before another; the fault `RangeTooLong` where there are
/// more than 65,536.
pub(crate) fn ranged(alloc: Global, at: u32, first: i64, end: i64) -> Result<Value, EvalEnd>
    ensures { Gives (ranged at first end) result }
{
    if is_short(first, end) {
        Ok(Value::List(numbers_between(alloc, first, end)?))
    } else {
        Err(EvalEnd::Fault(FaultKind::RangeTooLong, at))
    }
}

//! A list that is changed in its slot.

ghost use Rattle.std.specs.Prelude.{◌≡◌, ◌≢◌, Some, Err};
ghost use Rattle.dsde_language.specs.declared.operator.Builtin.TheVariants as builtin;
ghost use Rattle.dsde_language.specs.Outcome.{Stuck};
ghost use Rattle.dsde_language.specs.MeaningOperators.{of_three};
ghost use Rattle.dsde_language.specs.Flow.{why};
ghost use Rattle.dsde_language.specs.MeaningTables.{Flows, state_of};
ghost use Rattle.dsde_eval_short.specs.Changes.{made_by, made_in};

use crate::change::Which;
use crate::lists::{change_list, put};
use dsde_faults::EvalEnd;
use dsde_values::{Item, Seq, Value};

/// Changes the list in a slot by one value; a fault is that of the change. After one, and where memory ran out, the
/// list is as it was.
pub fn change_slot(
    which: Which,
    at: u32,
    slot: u32,
    own: Value,
    slots: &mut Seq<Value>,
    sends: &Seq<Item>,
) -> Result<(), EvalEnd>
    requires { why (made_in slot (λ list. made_by which at list own) (state_of slots.old sends.now)) ≢ Some Stuck }
    ensures flows { Flows (made_in slot (λ list. made_by which at list own) (state_of slots.old sends.now)) result slots.new sends.now }
    ensures keeps { result ≡ Err EvalEnd.Memory → slots.new ≡ slots.old }
{
    match slots.get_mut(slot as usize) {
        Some(list) => change_list(which, at, list, own),
        None => unreachable!(),
    }
}

/// Replaces the item at an index of the list in a slot; the fault `IndexOutOfRange` where there is none,
/// and then the list is as it was.
pub fn put_slot(
    at: u32,
    slot: u32,
    index: &Value,
    own: Value,
    slots: &mut Seq<Value>,
    sends: &Seq<Item>,
) -> Result<(), EvalEnd>
    requires { why (made_in slot (λ list. of_three builtin.Put at list index.now own) (state_of slots.old sends.now)) ≢ Some Stuck }
    ensures flows { Flows (made_in slot (λ list. of_three builtin.Put at list index.now own) (state_of slots.old sends.now)) result slots.new sends.now }
    ensures keeps { result ≡ Err EvalEnd.Memory → slots.new ≡ slots.old }
{
    match slots.get_mut(slot as usize) {
        Some(list) => put(at, list, index, own),
        None => unreachable!(),
    }
}

//! Translations of what goes along a link.

ghost use Rattle.std.specs.Prelude.{◌≡◌, Some, option_copied, IfOk};
ghost use Rattle.dsde_sound_expressions.specs.Conditions.{CanTranslate, Translated, via_values, option_value, IsOption};
ghost use Rattle.dsde_eval.specs.Translations.{HasTargetType};

use crate::env::{Env, eval};
use dsde_faults::EvalEnd;
use dsde_language::ViaId;
use dsde_lists::Memory;
use dsde_program::Program;
use dsde_values::{Seq, Value, Values, copy_value};
use std::alloc::Global;

/// What the translation with a number makes of a value, with the key of the component at its other
/// end where it takes one: a value of the type of the target's port, or none.
pub fn translate(
    alloc: Global,
    program: &Program,
    via: ViaId,
    key: Option<&Value>,
    value: &Value,
) -> Result<Option<Value>, Memory>
    requires { CanTranslate program.now via.0 (option_copied key) value.now }
    ensures means { IfOk result (λ held. Translated program.now via.0 (option_copied key.entry) value.now held) }
    ensures typed { IfOk result (λ held. HasTargetType program.now via.0 (option_copied key.entry) value.now held) }
{
    let code = program.via(via);
    let mut env = Env {
        slots: via_slots(alloc, key, value)?,
    };
    match eval(alloc, program, code.body, &mut env) {
        Ok(own) => Ok(held(own)),
        Err(EvalEnd::Memory) => Err(Memory),
        Err(EvalEnd::Fault(..)) => unreachable!(),
    }
}

/// What a translation sees: its value, and its key if it has one.
fn via_slots(alloc: Global, key: Option<&Value>, value: &Value) -> Result<Values, Memory>
    ensures { IfOk result (λ slots. slots ≡ via_values (option_copied key.entry) value.now) }
{
    let mut slots = Seq::new(alloc);
    slots.push(copy_value(alloc, value)?)?;
    if let Some(key) = key {
        slots.push(copy_value(alloc, key)?)?;
    }
    Ok(slots)
}

/// An option's value, if it has one.
fn held(value: Value) -> Option<Value>
    requires { IsOption value }
    ensures { option_value result ≡ value }
{
    match value {
        Value::Nothing => None,
        Value::Some(inner) => Some(inner.into_inner()),
        _ => unreachable!(),
    }
}

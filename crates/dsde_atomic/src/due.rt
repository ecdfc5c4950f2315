//! When a component is due next.

ghost use Rattle.std.specs.Prelude.{◌≡◌, ◌≢◌, ◌<◌, ◌++◌, List, length, Ok, Err, IfOk};
ghost use Rattle.dsde_values.specs.declared.value.Value as values;
ghost use Rattle.dsde_values.specs.declared.value.Value.TheVariants as value;
ghost use Rattle.dsde_values.specs.When.{IsMoment};
ghost use Rattle.dsde_language.specs.NodeModels.{infos_of};
ghost use Rattle.dsde_language.specs.Outcome as outcome;
ghost use Rattle.dsde_language.specs.Outcome.{Stuck};
ghost use Rattle.dsde_system.specs.given.formalism.Leaf.{Gives};
ghost use Rattle.dsde_system.specs.Body.{after};
ghost use Rattle.dsde_system.specs.Program.{system};
ghost use Rattle.dsde_system.specs.Fitting.{FitsArgs, FitsState, IsInTime};
ghost use Rattle.dsde_atomic.specs.Steps.{FitsBody, due_by};

use crate::body::{at_site, code_of};
use dsde_eval::given::program::Program;
use dsde_eval::{Env, eval, held_number};
use dsde_faults::{EvalEnd, FaultKind, LeafEnd, Site};
use dsde_language::ModelId;
use dsde_values::{LAST_MOMENT, Value, When};
use std::alloc::Global;

/// When a component with this body's values is due next that has an event at `time`.
pub(crate) fn due(
    alloc: Global,
    program: &Program,
    model: ModelId,
    env: &mut Env,
    time: u64,
) -> Result<When, LeafEnd>
    requires moment { IsMoment time }
    requires below { model.0 < length (infos_of program.now) }
    requires fits { FitsBody program.now model.0 env.old.slots }
    ensures gives { (args state : List values.Value) → FitsArgs program.now model.0 args → FitsState program.now model.0 state → env.old.slots ≡ args ++ state → Gives (((system program.now).component model args).advance state time) result }
    ensures keeps { env.new ≡ env.old }
    ensures in_time { IfOk result IsInTime }
{
    let code = code_of(program, model);
    if let Some(number) = held_number(alloc, program, code.advance, env) {
        return match after_number(code.advance_at, time, number) {
            Ok(next) => Ok(next),
            Err(end) => Err(at_site(Site::Advance, end)),
        };
    }
    let advance = match eval(alloc, program, code.advance, env) {
        Ok(advance) => advance,
        Err(end) => return Err(at_site(Site::Advance, end)),
    };
    match after_advance(code.advance_at, time, &advance) {
        Ok(next) => Ok(next),
        Err(end) => Err(at_site(Site::Advance, end)),
    }
}

/// The time of the next event: never, where the advance is an option without a value.
fn after_advance(at: u32, time: u64, advance: &Value) -> Result<When, EvalEnd>
    requires moment { IsMoment time }
    requires is { due_by at time advance.now ≢ Err Stuck }
    ensures gives { outcome.Gives (due_by at time advance.now) result }
    ensures in_time { IfOk result IsInTime }
{
    match advance {
        Value::Nothing => Ok(When::Never),
        Value::Some(inner) => after(at, time, number_of(inner.get())),
        _ => unreachable!(),
    }
}

/// The time of the next event, where the advance is an option that holds this number.
fn after_number(at: u32, time: u64, number: i64) -> Result<When, EvalEnd>
    requires { IsMoment time }
    ensures gives { outcome.Gives (due_by at time (value.Some (value.Int number))) result }
    ensures in_time { IfOk result IsInTime }
{
    after(at, time, number)
}

/// The number that a value is.
fn number_of(value: &Value) -> i64
    requires { outcome.int_of value.now ≢ Err Stuck }
    ensures { outcome.int_of value.now ≡ Ok result }
{
    match value {
        Value::Int(number) => *number,
        _ => unreachable!(),
    }
}

/// The moment that is so far behind another.
fn after(at: u32, time: u64, number: i64) -> Result<When, EvalEnd>
    requires { IsMoment time }
    ensures gives { outcome.Gives (after at time number) result }
    ensures in_time { IfOk result IsInTime }
{
    match u64::try_from(number) {
        Err(_) => Err(EvalEnd::Fault(FaultKind::NegativeAdvance, at)),
        Ok(advance) if advance > LAST_MOMENT - time => {
            Err(EvalEnd::Fault(FaultKind::TimeTooFar, at))
        }
        Ok(advance) => Ok(When::At(time + advance)),
    }
}

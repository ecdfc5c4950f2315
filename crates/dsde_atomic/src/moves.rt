//! Transitions.

ghost use Rattle.std.specs.Prelude.{◌≡◌, ◌≤◌, ◌++◌, ◌∷◌, [], pos, length, IfOk, OnOk};
ghost use Rattle.dsde_values.specs.declared.value.Value.TheVariants as values;
ghost use Rattle.dsde_values.specs.When.{IsMoment};
ghost use Rattle.dsde_system.specs.given.formalism.Leaf.{Gives, transition};
ghost use Rattle.dsde_system.specs.Body.{is_flooded, lists_of};
ghost use Rattle.dsde_system.specs.Program.{system};
ghost use Rattle.dsde_system.specs.Fitting.{FitsArgs, FitsInputs, FitsState};
ghost use Rattle.dsde_atomic.specs.Steps.{CanMove, HasPhase, Moved, Sees};

use crate::body::{at_site, behind, code_of};
use dsde_eval::given::eval_tables::slots_of;
use dsde_eval::given::program::Program;
use dsde_eval::{Env, run_block};
use dsde_faults::{EvalEnd, FaultKind, LeafEnd, Site};
use dsde_language::{BlockId, ModelId};
use dsde_lists::Memory;
use dsde_system::given::formalism::{Inputs, MoveKind};
use dsde_values::{Seq, Value, Values};
use std::alloc::Global;

/// The most values that a block may get at one in port.
const MOST_VALUES: usize = 65_536;

/// The state after a transition.
pub(crate) fn transition(
    alloc: Global,
    program: &Program,
    model: ModelId,
    args: &Values,
    state: Values,
    kind: MoveKind,
    elapsed: u64,
    got: Inputs,
) -> Result<Values, LeafEnd>
    requires args { FitsArgs program.now model.0 args.now }
    requires state { FitsState program.now model.0 state }
    requires elapsed { IsMoment elapsed }
    requires got { FitsInputs program.now model.0 got.ports }
    ensures gives { Gives (transition ((system program.now).component model args.now) state kind elapsed got.ports) result }
    ensures fits { IfOk result (λ moved. FitsState program.now model.0 moved) }
{
    match kind {
        MoveKind::Internal => internal(alloc, program, model, args, state),
        MoveKind::External => external(alloc, program, model, args, state, elapsed, got),
        MoveKind::Confluent => confluent(alloc, program, model, args, state, elapsed, got),
    }
}

/// The state after an internal transition. One that is omitted keeps it.
fn internal(
    alloc: Global,
    program: &Program,
    model: ModelId,
    args: &Values,
    state: Values,
) -> Result<Values, LeafEnd>
    requires args { FitsArgs program.now model.0 args.now }
    requires state { FitsState program.now model.0 state }
    ensures gives { Gives (((system program.now).component model args.now).internal state) result }
    ensures fits { IfOk result (λ moved. FitsState program.now model.0 moved) }
{
    let block = match code_of(program, model).internal {
        Some(block) => block,
        None => return Ok(state),
    };
    let states = state.len();
    let slots = slots_of(alloc, args, state)?;
    match moved(alloc, program, block, slots, args.len(), states) {
        Ok(state) => Ok(state),
        Err(end) => Err(at_site(Site::Internal, end)),
    }
}

/// The state after an external transition. One that is omitted keeps it.
fn external(
    alloc: Global,
    program: &Program,
    model: ModelId,
    args: &Values,
    state: Values,
    elapsed: u64,
    got: Inputs,
) -> Result<Values, LeafEnd>
    requires args { FitsArgs program.now model.0 args.now }
    requires state { FitsState program.now model.0 state }
    requires elapsed { IsMoment elapsed }
    requires got { FitsInputs program.now model.0 got.ports }
    ensures gives { Gives (((system program.now).component model args.now).external state elapsed got.ports) result }
    ensures fits { IfOk result (λ moved. FitsState program.now model.0 moved) }
{
    let code = code_of(program, model);
    match code.external {
        None => Ok(state),
        Some(block) => {
            let phase = Phase {
                site: Site::External,
                block,
                at: code.external_at,
            };
            seeing(alloc, program, model, &phase, args, state, elapsed, got)
        }
    }
}

/// The state after a confluent transition. One that is omitted is the internal one, and then the
/// external one with no time elapsed.
fn confluent(
    alloc: Global,
    program: &Program,
    model: ModelId,
    args: &Values,
    state: Values,
    elapsed: u64,
    got: Inputs,
) -> Result<Values, LeafEnd>
    requires args { FitsArgs program.now model.0 args.now }
    requires state { FitsState program.now model.0 state }
    requires elapsed { IsMoment elapsed }
    requires got { FitsInputs program.now model.0 got.ports }
    ensures gives { Gives (((system program.now).component model args.now).confluent state elapsed got.ports) result }
    ensures fits { IfOk result (λ moved. FitsState program.now model.0 moved) }
{
    let code = code_of(program, model);
    match code.confluent {
        None => {
            let moved = internal(alloc, program, model, args, state)?;
            external(alloc, program, model, args, moved, 0, got)
        }
        Some(block) => {
            let phase = Phase {
                site: Site::Confluent,
                block,
                at: code.confluent_at,
            };
            seeing(alloc, program, model, &phase, args, state, elapsed, got)
        }
    }
}

/// A block that sees the input: its part of the component, its number and its place.
#[derive(Clone, Copy)]
struct Phase {
    pub site: Site,
    pub block: BlockId,
    pub at: u32,
}

/// The state after a block that sees the input.
fn seeing(
    alloc: Global,
    program: &Program,
    model: ModelId,
    phase: &Phase,
    args: &Values,
    state: Values,
    elapsed: u64,
    got: Inputs,
) -> Result<Values, LeafEnd>
    requires args { FitsArgs program.now model.0 args.now }
    requires state { FitsState program.now model.0 state }
    requires elapsed { IsMoment elapsed }
    requires got { FitsInputs program.now model.0 got.ports }
    requires phase { HasPhase program.now model.0 phase.now.block.0 phase.now.at }
    ensures gives { Sees program.now model.0 phase.now.block.0 phase.now.at phase.now.site args.now state elapsed got.ports result }
    ensures fits { IfOk result (λ moved. FitsState program.now model.0 moved) }
{
    if is_flooded(got.ports.as_slice()) {
        return Err(LeafEnd::Fault(phase.site, FaultKind::RangeTooLong, phase.at));
    }
    let states = state.len();
    let mut slots = slots_of(alloc, args, state)?;
    put_inputs(&mut slots, got, elapsed)?;
    match moved(alloc, program, phase.block, slots, args.len(), states) {
        Ok(state) => Ok(state),
        Err(end) => Err(at_site(phase.site, end)),
    }
}

/// Whether too many values came at one in port.
fn is_flooded(got: &[Values]) -> bool
    ensures { result ≡ is_flooded got.now }
{
    got.iter().any(|values| MOST_VALUES < values.len())
}

/// Puts what came at each in port, as a list, and the time elapsed behind other values.
fn put_inputs(slots: &mut Values, got: Inputs, elapsed: u64) -> Result<(), Memory>
    requires { IsMoment elapsed }
    ensures { OnOk result (slots.new ≡ slots.old ++ lists_of got.ports ++ values.Int (pos elapsed) ∷ []) }
{
    put_lists(slots, got.ports)?;
    slots.push(Value::Int(elapsed as i64))
}

/// Puts what came at each in port, as a list, behind other values.
fn put_lists(slots: &mut Values, ports: Seq<Values>) -> Result<(), Memory>
    ensures { OnOk result (slots.new ≡ slots.old ++ lists_of ports) }
{
    for values in ports.into_vec() {
        slots.push(Value::List(values))?;
    }
    Ok(())
}

/// The state variables behind a block that sends nothing, over what it sees: so many values are
/// arguments, and so many behind them state variables.
fn moved(
    alloc: Global,
    program: &Program,
    block: BlockId,
    slots: Values,
    params: usize,
    states: usize,
) -> Result<Values, EvalEnd>
    requires can { CanMove program.now block.0 slots }
    requires params { params ≤ length slots }
    ensures { Moved program.now block.0 slots params states result }
{
    let mut env = Env { slots };
    let mut sends = Seq::new(alloc);
    run_block(alloc, program, block, &mut env, &mut sends)?;
    let mut state = behind(env.slots, params);
    state.truncate(states);
    Ok(state)
}

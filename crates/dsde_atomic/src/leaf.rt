//! Starts, outputs and moves of components.

ghost use Rattle.std.specs.Prelude.{◌≡◌, ◌++◌, IfOk};
ghost use Rattle.dsde_values.specs.When.{IsMoment};
ghost use Rattle.dsde_system.specs.given.formalism.Leaf.{Gives, settled, start_leaf, output_leaf, move_leaf};
ghost use Rattle.dsde_system.specs.Program.{system};
ghost use Rattle.dsde_system.specs.Fitting.{FitsArgs, FitsInputs, FitsLeaf, FitsSends, FitsState, IsInTime};

use crate::body::{at_site, behind, code_of};
use crate::due::due;
use crate::init::init;
use crate::moves::transition;
use dsde_eval::given::eval_tables::slots_of;
use dsde_eval::given::program::Program;
use dsde_eval::{Env, run_block};
use dsde_faults::{LeafEnd, Site};
use dsde_language::ModelId;
use dsde_system::given::formalism::{Inputs, Leaf, MoveKind};
use dsde_values::{Item, Memory, Seq, Values, When, copy_values};
use std::alloc::Global;

/// A component of the model with these arguments that starts at `time`: an atomic model's, or the
/// executive of a network.
pub fn start_leaf(
    alloc: Global,
    program: &Program,
    model: ModelId,
    boss: bool,
    args: Values,
    time: u64,
) -> Result<Leaf, LeafEnd>
    requires moment { IsMoment time }
    requires args { FitsArgs program.now model.0 args }
    ensures gives { Gives (start_leaf (system program.now) model boss args time) result }
    ensures fits { IfOk result (λ leaf. FitsLeaf program.now leaf) }
    ensures model { IfOk result (λ leaf. leaf.model ≡ model) }
    ensures args { IfOk result (λ leaf. leaf.args ≡ args) }
    ensures boss { IfOk result (λ leaf. leaf.boss ≡ boss) }
{
    let state = init(alloc, program, model, &args)?;
    settled(alloc, program, model, boss, args, state, time)
}

/// A component in this state after an event at `time`.
fn settled(
    alloc: Global,
    program: &Program,
    model: ModelId,
    boss: bool,
    args: Values,
    state: Values,
    time: u64,
) -> Result<Leaf, LeafEnd>
    requires moment { IsMoment time }
    requires args { FitsArgs program.now model.0 args }
    requires state { FitsState program.now model.0 state }
    ensures gives { Gives (settled (system program.now) model boss args state time) result }
    ensures fits { IfOk result (λ leaf. FitsLeaf program.now leaf) }
    ensures model { IfOk result (λ leaf. leaf.model ≡ model) }
    ensures args { IfOk result (λ leaf. leaf.args ≡ args) }
    ensures boss { IfOk result (λ leaf. leaf.boss ≡ boss) }
{
    let params = args.len();
    let slots = slots_of(alloc, &args, state)?;
    let mut env = Env { slots };
    let next = due(alloc, program, model, &mut env, time)?;
    let state = behind(env.slots, params);
    Ok(Leaf {
        model,
        boss,
        args,
        state,
        last: time,
        next,
    })
}

/// The time of the next event of a component of the model with these arguments, in this state, whose
/// last event was at `time`: an atomic model's, or the executive of a network. `Fault` comes exactly
/// where the advance faults.
pub fn next_event(
    alloc: Global,
    program: &Program,
    model: ModelId,
    args: &Values,
    state: &Values,
    time: u64,
) -> Result<When, LeafEnd>
    requires moment { IsMoment time }
    requires args { FitsArgs program.now model.0 args.now }
    requires state { FitsState program.now model.0 state.now }
    ensures gives { Gives (((system program.now).component model args.now).advance state.now time) result }
    ensures in_time { IfOk result IsInTime }
{
    let slots = seen(alloc, args, state)?;
    let mut env = Env { slots };
    due(alloc, program, model, &mut env, time)
}

/// What a body sees: copies of the arguments, and of the state behind them.
fn seen(alloc: Global, args: &Values, state: &Values) -> Result<Values, Memory>
    ensures { IfOk result (λ slots. slots ≡ args.now ++ state.now) }
{
    let state = copy_values(alloc, state.as_slice())?;
    slots_of(alloc, args, state)
}

/// What the component sends where it is due, in the order in which it is sent.
pub fn output_leaf(alloc: Global, program: &Program, leaf: &Leaf) -> Result<Seq<Item>, LeafEnd>
    requires { FitsLeaf program.now leaf.now }
    ensures gives { Gives (output_leaf (system program.now) leaf.now) result }
    ensures fits { IfOk result (λ sends. FitsSends program.now leaf.now.model.0 sends) }
{
    let mut sends = Seq::new(alloc);
    let block = match code_of(program, leaf.model).output {
        Some(block) => block,
        None => return Ok(sends),
    };
    let state = copy_values(alloc, leaf.state.as_slice())?;
    let slots = slots_of(alloc, &leaf.args, state)?;
    let mut env = Env { slots };
    match run_block(alloc, program, block, &mut env, &mut sends) {
        Ok(()) => Ok(sends),
        Err(end) => Err(at_site(Site::Output, end)),
    }
}

/// The component after its move at `time`, with the values that came at each in port.
pub fn move_leaf(
    alloc: Global,
    program: &Program,
    leaf: &Leaf,
    kind: MoveKind,
    time: u64,
    got: Inputs,
) -> Result<Leaf, LeafEnd>
    requires moment { IsMoment time }
    requires leaf { FitsLeaf program.now leaf.now }
    requires got { FitsInputs program.now leaf.now.model.0 got.ports }
    ensures gives { Gives (move_leaf (system program.now) leaf.now kind time got.ports) result }
    ensures fits { IfOk result (λ leaf. FitsLeaf program.now leaf) }
    ensures model { IfOk result (λ moved. moved.model ≡ leaf.now.model) }
    ensures args { IfOk result (λ moved. moved.args ≡ leaf.now.args) }
    ensures boss { IfOk result (λ moved. moved.boss ≡ leaf.now.boss) }
{
    let copy = copy_leaf(alloc, leaf)?;
    leaf_moved(alloc, program, copy, kind, time, got)
}

/// A component equal to this one.
fn copy_leaf(alloc: Global, leaf: &Leaf) -> Result<Leaf, Memory>
    ensures { IfOk result (λ copy. copy ≡ leaf.now) }
{
    Ok(Leaf {
        model: leaf.model,
        boss: leaf.boss,
        args: copy_values(alloc, leaf.args.as_slice())?,
        state: copy_values(alloc, leaf.state.as_slice())?,
        last: leaf.last,
        next: leaf.next,
    })
}

/// The component itself after its move at `time`, with the values that came at each in port: its state
/// is not copied.
pub fn leaf_moved(
    alloc: Global,
    program: &Program,
    leaf: Leaf,
    kind: MoveKind,
    time: u64,
    got: Inputs,
) -> Result<Leaf, LeafEnd>
    requires moment { IsMoment time }
    requires leaf { FitsLeaf program.now leaf }
    requires got { FitsInputs program.now leaf.model.0 got.ports }
    ensures gives { Gives (move_leaf (system program.now) leaf kind time got.ports) result }
    ensures fits { IfOk result (λ moved. FitsLeaf program.now moved) }
    ensures model { IfOk result (λ moved. moved.model ≡ leaf.model) }
    ensures args { IfOk result (λ moved. moved.args ≡ leaf.args) }
    ensures boss { IfOk result (λ moved. moved.boss ≡ leaf.boss) }
{
    let elapsed = time.saturating_sub(leaf.last);
    let Leaf {
        model,
        boss,
        args,
        state,
        last: _,
        next: _,
    } = leaf;
    let moved = transition(alloc, program, model, &args, state, kind, elapsed, got)?;
    settled(alloc, program, model, boss, args, moved, time)
}

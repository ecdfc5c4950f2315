//! What rows say of parts.

ghost use Rattle.std.specs.Prelude.{◌≡◌, false, true, Ok, IfOk, IfSome};
ghost use Rattle.dsde_values.specs.When.{IsMoment};
ghost use Rattle.dsde_sound_structures.specs.given.system.Program.{system};
ghost use Rattle.dsde_sound_structures.specs.given.system.Fitting.{FitsArgs};
ghost use Rattle.dsde_image_rows.specs.Walk.{args_in, is_next, is_due_later, is_standing, stood, said_by, atomic_in, boss_in, net_in};
ghost use Rattle.dsde_image_rows.specs.Script.{script};
ghost use Rattle.dsde_image.specs.declared.image.Body.TheVariants as body;
ghost use Rattle.dsde_image_rows.specs.Walks.{FitsComponent, FitsOwn};

use crate::{are_written, args_of, is_named, state_of};
use dsde_faults::LeafEnd;
use dsde_image::{Body, Row, Standing};
use dsde_language::ModelId;
use dsde_sim_starting::given::atomic::next_event;
use dsde_sim_starting::given::program::Program;
use dsde_sim_tree::given::formalism::Leaf;
use dsde_values::{Memory, Seq, Text, Values, When, copy_values};
use std::alloc::Global;

fn is_next(found: When, next: When) -> bool
    ensures { result ≡ is_next (Ok found) next }
{
    match (found, next) {
        (When::At(time), When::At(next)) => time == next,
        (When::Never, When::Never) => true,
        _ => false,
    }
}

fn is_due_later(time: u64, next: When) -> bool
    ensures { result ≡ is_due_later time next }
{
    match next {
        When::At(next) => time <= next,
        When::Never => true,
    }
}

/// Whether a component in this standing, with the time that its advance gives, stands now.
fn is_standing(standing: &Standing, next: When, time: u64) -> bool
    ensures { result ≡ is_standing standing.now (Ok next) time }
{
    standing.last <= time && is_next(next, standing.next) && is_due_later(time, standing.next)
}

/// The component or the executive with this standing, if it stands at a time.
fn stood(
    alloc: Global,
    program: &Program,
    model: ModelId,
    boss: bool,
    args: Values,
    time: u64,
    standing: &Standing,
) -> Result<Option<Leaf>, Memory>
    requires moment { IsMoment time }
    requires args { FitsArgs program.now model.0 args }
    ensures is { IfOk result (λ found. found ≡ stood (system program.now) (script program.now) time model boss args standing.now) }
    ensures fits { IfOk result (λ found. IfSome found (FitsOwn program.now model boss args)) }
{
    let Some(state) = state_of(alloc, program, model, standing.state.as_slice())? else {
        return Ok(None);
    };
    if standing.last > time {
        return Ok(None);
    }
    match next_event(alloc, program, model, &args, &state, standing.last) {
        Ok(next) if is_standing(standing, next, time) => Ok(Some(Leaf {
            model,
            boss,
            args,
            state,
            last: standing.last,
            next,
        })),
        Err(LeafEnd::Memory) => Err(Memory),
        _ => Ok(None),
    }
}

/// The arguments that a row says: those of its part's entry, or any where that is soft.
fn args_in(
    alloc: Global,
    program: &Program,
    soft: bool,
    model: ModelId,
    args: Values,
    own: &Seq<Text>,
) -> Result<Option<Values>, Memory>
    requires { FitsArgs program.now model.0 args }
    ensures is { IfOk result (λ found. found ≡ args_in (script program.now) soft model args own.now) }
    ensures fits { IfOk result (λ found. IfSome found (FitsArgs program.now model.0)) }
{
    if soft {
        return args_of(alloc, program, model, own.as_slice());
    }
    if are_written(alloc, program, own, &args)? {
        Ok(Some(args))
    } else {
        Ok(None)
    }
}

/// The atomic component with these arguments and this standing, as a row has them.
fn atomic_of(
    alloc: Global,
    program: &Program,
    soft: bool,
    model: ModelId,
    args: Values,
    time: u64,
    own: &Seq<Text>,
    standing: &Standing,
) -> Result<Option<Leaf>, Memory>
    requires moment { IsMoment time }
    requires args { FitsArgs program.now model.0 args }
    ensures is { IfOk result (λ found. found ≡ atomic_in (system program.now) (script program.now) time soft model args (body.Atomic own.now standing.now)) }
    ensures fits { IfOk result (λ found. IfSome found (FitsComponent program.now model false)) }
{
    let Some(args) = args_in(alloc, program, soft, model, args, own)? else {
        return Ok(None);
    };
    stood(alloc, program, model, false, args, time, standing)
}

/// The atomic component that a row of this model says.
pub(crate) fn atomic_in(
    alloc: Global,
    program: &Program,
    soft: bool,
    model: ModelId,
    args: Values,
    time: u64,
    row: &Row,
) -> Result<Option<Leaf>, Memory>
    requires moment { IsMoment time }
    requires args { FitsArgs program.now model.0 args }
    ensures is { IfOk result (λ found. found ≡ said_by (script program.now) row.now model (atomic_in (system program.now) (script program.now) time soft model args row.now.body)) }
    ensures fits { IfOk result (λ found. IfSome found (FitsComponent program.now model false)) }
{
    if !is_named(program, model, row.model.as_slice()) {
        return Ok(None);
    }
    match &row.body {
        Body::Atomic {
            args: own,
            standing,
        } => atomic_of(alloc, program, soft, model, args, time, own, standing),
        _ => Ok(None),
    }
}

/// Values equal to these.
fn copy_of(alloc: Global, values: &Values) -> Result<Values, Memory>
    ensures { IfOk result (λ copy. copy ≡ values.now) }
{
    copy_values(alloc, values.as_slice())
}

/// The executive with these arguments that a row of this model says.
pub(crate) fn boss_in(
    alloc: Global,
    program: &Program,
    model: ModelId,
    args: &Values,
    time: u64,
    row: &Row,
) -> Result<Option<Leaf>, Memory>
    requires moment { IsMoment time }
    requires args { FitsArgs program.now model.0 args.now }
    ensures is { IfOk result (λ found. found ≡ said_by (script program.now) row.now model (boss_in (system program.now) (script program.now) time model args.now row.now.body)) }
    ensures fits { IfOk result (λ found. IfSome found (FitsOwn program.now model true args.now)) }
{
    if !is_named(program, model, row.model.as_slice()) {
        return Ok(None);
    }
    match &row.body {
        Body::Executive { standing } => {
            let args = copy_of(alloc, args)?;
            stood(alloc, program, model, true, args, time, standing)
        }
        _ => Ok(None),
    }
}

/// The arguments of the network that a row of this model says.
pub(crate) fn net_in(
    alloc: Global,
    program: &Program,
    soft: bool,
    model: ModelId,
    args: Values,
    row: &Row,
) -> Result<Option<Values>, Memory>
    requires { FitsArgs program.now model.0 args }
    ensures is { IfOk result (λ found. found ≡ said_by (script program.now) row.now model (net_in (script program.now) soft model args row.now.body)) }
    ensures fits { IfOk result (λ found. IfSome found (FitsArgs program.now model.0)) }
{
    if !is_named(program, model, row.model.as_slice()) {
        return Ok(None);
    }
    match &row.body {
        Body::Net { args: own } => args_in(alloc, program, soft, model, args, own),
        _ => Ok(None),
    }
}

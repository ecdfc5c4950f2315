//! The turns of an engine that goes on with an input of which it took some records before.

ghost use Rattle.std.specs.Prelude.{◌≡◌, ◌+◌, ◌<◌, ◌≤◌, ◌^◌, [], true, is_some, Ok, Err, IfOk};
ghost use Rattle.dsde_io.specs.Fault.{Rose};
ghost use Rattle.dsde_run.specs.Ends.{answer_of};
ghost use Rattle.dsde_run.specs.Reading.{IsWhole, TakesWanted, Told};
ghost use Rattle.dsde_run.specs.Steps.{IsRoot};
ghost use Rattle.dsde_run.specs.Resumed.{records_for, resumed_on};
ghost use Rattle.dsde_run.specs.Resuming.{ComesBack, stopped_as, taken_up};

use crate::{Cut, RunEnd, Running, run_turns};
use dsde_core::Core;
use dsde_image_rows::given::sound_structures::top_is_sure;
use dsde_input::{InputEnd, SkipEnd, skip};
use dsde_io::{Sink, Source};
use dsde_sim_tree::{Finish, InputKind};
use dsde_trace::Pick;
use std::alloc::Global;

/// Why a run that is taken up again has no end.
#[derive(Clone, Copy)]
pub enum Unresumed {
    /// The input ends before the records that the engine took.
    FewRecords,
    /// It was cut short.
    Cut(Cut),
}

/// Takes a run up again: skips the records of the input that the engine took, and goes on for at most this
/// many turns, which are no more than 1,000,000,000, with no record before the engine's time. No more than 2^62
/// parts were born in the engine. The input is the whole input of the run from its start.
///
/// Nothing is written before the records are skipped: where a line among them is bad the run ends with it, with no
/// line of its own, and `FewRecords` comes exactly where the input ends before. Then the engine stays as it was.
/// Otherwise the run ends as `run_turns` does, and the engine stands where it ended and is not spent, unless by a
/// fault. An engine that took no record and goes on for no turn reads nothing. This project's profile.
pub fn resume_turns<R: Source, W: Sink>(
    alloc: Global,
    core: &mut Core<'_>,
    source: &mut R,
    sink: &mut W,
    own: &Running<'_>,
    pick: Pick,
    turns: u64,
) -> Result<Finish, Unresumed>
    requires program { core.old.program ≡ own.now.model }
    requires fresh { is_some core.old.engine.tree ≡ true }
    requires bounded { core.old.engine.turn + turns < 2 ^ 63 }
    requires at_most { turns ≤ 1_000_000_000 }
    requires births { core.old.born ≤ 2 ^ 62 }

    ensures comes { Told (R.left source.old) (R.left source.new) (ComesBack own.now pick turns core.old.engine
        core.new.engine (W.written sink.old) (W.written sink.new) result) }
    ensures taken { Told (R.left source.old) (R.left source.new) (λ before.
        TakesWanted (resumed_on own.now turns core.old.engine) (records_for own.now core.old.engine before) [] before) }
    ensures quiet { result ≡ Ok Finish.Quiet → Told (R.left source.old) (R.left source.new) (λ _ after. after ≡ []) }
    ensures few { result ≡ Err Unresumed.FewRecords → (sink.new ≡ sink.old) × (core.new ≡ core.old) }

    ensures program { core.new.program ≡ core.old.program }
    ensures unspent { IfOk result (λ how. IsWhole how → is_some core.new.engine.tree ≡ true) }
    ensures idle { core.old.engine.taken ≡ 0 → turns ≡ 0 → source.new ≡ source.old }

    ensures unread { result ≡ Err (Unresumed.Cut Cut.ReadFault) → Rose (R.faults source.old) (R.faults source.new) }
    ensures unwritten { result ≡ Err (Unresumed.Cut Cut.Unwritten) → Rose (W.faults sink.old) (W.faults sink.new) }
    ensures reads_counted { R.faults source.old ≤ R.faults source.new }
    ensures writes_counted { W.faults sink.old ≤ W.faults sink.new }
{
    is_rooted(core, own);
    let skipped = skip(
        alloc,
        source,
        own.ins(),
        own.types(),
        core.taken(),
        core.time(),
    );
    match skipped {
        Ok(mut reader) => answered(run_turns(
            alloc,
            core,
            &mut reader,
            source,
            sink,
            own,
            pick,
            turns,
        )),
        Err(why) => stopped(why),
    }
}

/// A law: the root of an engine's tree is of the model that runs.
fn is_rooted(core: &Core<'_>, own: &Running<'_>)
    requires { core.now.program ≡ own.now.model }
    ensures { IsRoot own.now core.now.engine }
{
    top_is_sure();
    own.program().right();
    core.stands();
}

/// How a run ends whose turns ended so.
fn answered(end: RunEnd) -> Result<Finish, Unresumed>
    ensures { result ≡ taken_up (answer_of end) }
{
    match end {
        RunEnd::Bound => Ok(Finish::Bound),
        RunEnd::Quiet => Ok(Finish::Quiet),
        RunEnd::BadInput(kind, line) => Ok(Finish::Input { kind, line }),
        RunEnd::Fault(fault) => Ok(Finish::Fault(fault)),
        RunEnd::ReadFault => Err(Unresumed::Cut(Cut::ReadFault)),
        RunEnd::Unwritten => Err(Unresumed::Cut(Cut::Unwritten)),
        RunEnd::Memory => Err(Unresumed::Cut(Cut::Memory)),
    }
}

/// How a run ends whose records are not skipped.
fn stopped(why: SkipEnd) -> Result<Finish, Unresumed>
    ensures { result ≡ stopped_as why }
{
    let (kind, line) = match why {
        SkipEnd::Few => return Err(Unresumed::FewRecords),
        SkipEnd::Refused(InputEnd::BadLine(line)) => (InputKind::BadLine, line),
        SkipEnd::Refused(InputEnd::Backwards(line)) => (InputKind::Backwards, line),
        SkipEnd::Refused(InputEnd::LineTooLong(line)) => (InputKind::LineTooLong, line),
        SkipEnd::Refused(InputEnd::ReadFault) => return Err(Unresumed::Cut(Cut::ReadFault)),
        SkipEnd::Refused(InputEnd::Memory) => return Err(Unresumed::Cut(Cut::Memory)),
    };
    Ok(Finish::Input { kind, line })
}

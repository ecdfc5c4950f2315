//! How the turns of a run end, in one list.

ghost use Rattle.std.specs.Prelude.{◌≡◌, ◌+◌, ◌<◌, ◌≤◌, ◌^◌, [], true, false, is_some, IfOk};
ghost use Rattle.dsde_io.specs.Fault.{Rose};
ghost use Rattle.dsde_run.specs.Run.{go_by};
ghost use Rattle.dsde_run.specs.Reading.{Told, IsWhole, TakesWanted, Comes};
ghost use Rattle.dsde_input.specs.Reader.{least_time};
ghost use Rattle.dsde_run.specs.Steps.{IsRoot, to_give};
ghost use Rattle.dsde_run.specs.Ends.{answer_of};

use crate::run::{Cut, go};
use crate::{Advance, Running};
use dsde_input::InputReader;
use dsde_io::{Sink, Source};
use dsde_sim_tree::{Fault, Finish, InputKind};
use dsde_trace::Pick;
use std::alloc::Global;

/// How the turns of a run end.
#[derive(Drop)]
pub enum RunEnd {
    Bound,
    Quiet,
    BadInput(InputKind, u64),
    Fault(Fault),
    ReadFault,
    Unwritten,
    Memory,
}

/// At most this many turns, which are no more than 1,000,000,000, of an engine in which no more than 2^62 parts were
/// born. The lines of a turn are handed on before the next record is asked for.
pub fn run_turns<E: Advance, R: Source, W: Sink>(
    alloc: Global,
    engine: &mut E,
    reader: &mut InputReader,
    source: &mut R,
    sink: &mut W,
    own: &Running<'_>,
    pick: Pick,
    turns: u64,
) -> RunEnd
    requires program { E.program engine.old ≡ own.now.model }
    requires root { IsRoot own.now (E.engine (E.state engine.old)) }
    requires fresh { is_some (E.engine (E.state engine.old)).tree ≡ true }
    requires in_time { (E.engine (E.state engine.old)).time ≤ least_time reader.old }
    requires bounded { (E.engine (E.state engine.old)).turn + turns < 2 ^ 63 }
    requires few { turns ≤ 1_000_000_000 }
    requires births { E.born engine.old ≤ 2 ^ 62 }

    ensures comes { Told (R.left source.old) (R.left source.new) (λ before.
        Comes own.now pick (λ records. go_by E.engine (E.advance own.now.model) own.now turns records (E.state engine.old)) (to_give own.now reader.old before)
        (E.engine (E.state engine.new)) (W.written sink.old) (W.written sink.new) (answer_of result) reader.old.held before) }
    ensures taken { Told (R.left source.old) (R.left source.new) (λ before.
        TakesWanted (λ records. go_by E.engine (E.advance own.now.model) own.now turns records (E.state engine.old)) (to_give own.now reader.old before) reader.old.held before) }
    ensures quiet { reader.old.ended ≡ false → result ≡ RunEnd.Quiet → Told (R.left source.old) (R.left source.new) (λ _ after. after ≡ []) }

    ensures program { E.program engine.new ≡ E.program engine.old }
    ensures unspent { IfOk (answer_of result) (λ how. IsWhole how → is_some (E.engine (E.state engine.new)).tree ≡ true) }
    ensures unspent_cut { result ≡ RunEnd.ReadFault → is_some (E.engine (E.state engine.new)).tree ≡ true }

    ensures unread { result ≡ RunEnd.ReadFault → Rose (R.faults source.old) (R.faults source.new) }
    ensures unwritten { result ≡ RunEnd.Unwritten → Rose (W.faults sink.old) (W.faults sink.new) }
    ensures reads_counted { R.faults source.old ≤ R.faults source.new }
    ensures writes_counted { W.faults sink.old ≤ W.faults sink.new }
    ensures idle { turns ≡ 0 → (source.new ≡ source.old) × (reader.new ≡ reader.old) }
{
    flat(go(alloc, engine, reader, source, sink, own, pick, turns))
}

fn flat(answer: Result<Finish, Cut>) -> RunEnd
    ensures { answer_of result ≡ answer }
{
    match answer {
        Ok(Finish::Bound) => RunEnd::Bound,
        Ok(Finish::Quiet) => RunEnd::Quiet,
        Ok(Finish::Input { kind, line }) => RunEnd::BadInput(kind, line),
        Ok(Finish::Fault(fault)) => RunEnd::Fault(fault),
        Err(Cut::ReadFault) => RunEnd::ReadFault,
        Err(Cut::Unwritten) => RunEnd::Unwritten,
        Err(Cut::Memory) => RunEnd::Memory,
    }
}

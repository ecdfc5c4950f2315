//! A whole run: the start of an engine, and its turns.

ghost use Rattle.std.specs.Prelude.{◌≡◌, ◌≤◌, ◌^◌, Ok, [], true, is_some, IfOk, IsErrOf, IsSomeAnd};
ghost use Rattle.dsde_io.specs.Fault.{Rose};
ghost use Rattle.dsde_sim_tree.specs.Told as told;
ghost use Rattle.dsde_sim_tree.specs.declared.fault.TurnEnd.{TurnEnd};
ghost use Rattle.dsde_run.specs.Run.{run, run_by, records_in};
ghost use Rattle.dsde_run.specs.Reading.{Told, IsWhole, TakesWanted, ComesWhole, StartsFaulted};
ghost use Rattle.dsde_run.specs.Steps.{Begins, Starts};

use crate::run::{Cut, finish, finish_of, go, hand_on, write_events};
use crate::{Advance, Running};
use dsde_core::Core;
use dsde_input::InputReader;
use dsde_io::{Sink, Source};
use dsde_sim_tree::{Event, Finish, TurnEnd};
use dsde_trace::Pick;
use dsde_values::{Memory, Seq, Text};
use std::alloc::Global;

/// Runs a program from its start, for at most this many turns, which are no more than 1,000,000,000. The
/// start's lines are handed on before the first record is wanted.
pub fn run_model<R: Source, W: Sink>(
    alloc: Global,
    own: &Running<'_>,
    pick: Pick,
    turns: u64,
    source: &mut R,
    sink: &mut W,
) -> Result<Finish, Cut>
    requires turns { turns ≤ 1_000_000_000 }

    ensures comes { Told (R.left source.old) (R.left source.new) (λ before.
        ComesWhole own.now pick (λ records. run own.now records turns) (records_in own.now before) (W.written sink.old) (W.written sink.new) result before) }
    ensures taken { Told (R.left source.old) (R.left source.new) (λ before.
        TakesWanted (λ records. run own.now records turns) (records_in own.now before) [] before) }
    ensures quiet { result ≡ Ok Finish.Quiet → Told (R.left source.old) (R.left source.new) (λ _ after. after ≡ []) }

    ensures unread { IsErrOf result Cut.ReadFault → Rose (R.faults source.old) (R.faults source.new) }
    ensures unwritten { IsErrOf result Cut.Unwritten → Rose (W.faults sink.old) (W.faults sink.new) }
    ensures reads_counted { R.faults source.old ≤ R.faults source.new }
    ensures writes_counted { W.faults sink.old ≤ W.faults sink.new }
    ensures idle { turns ≡ 0 → source.new ≡ source.old }
{
    let mut left = None;
    run_leaving(alloc, own, pick, turns, source, sink, &mut left)
}

/// The same, and leaves the engine in `left`: where the run ended otherwise than by a fault it stands
/// where the run did, and is not spent.
pub fn run_leaving<'p, R: Source, W: Sink>(
    alloc: Global,
    own: &Running<'p>,
    pick: Pick,
    turns: u64,
    source: &mut R,
    sink: &mut W,
    left: &mut Option<Core<'p>>,
) -> Result<Finish, Cut>
    requires turns { turns ≤ 1_000_000_000 }

    ensures comes { Told (R.left source.old) (R.left source.new) (λ before.
        ComesWhole own.now pick (λ records. run own.now records turns) (records_in own.now before) (W.written sink.old) (W.written sink.new) result before) }
    ensures taken { Told (R.left source.old) (R.left source.new) (λ before.
        TakesWanted (λ records. run own.now records turns) (records_in own.now before) [] before) }
    ensures quiet { result ≡ Ok Finish.Quiet → Told (R.left source.old) (R.left source.new) (λ _ after. after ≡ []) }

    ensures left { IfOk result (λ how. IsWhole how → IsSomeAnd left.new (λ core. (core.program ≡ own.now.model) × (is_some core.engine.tree ≡ true))) }
    ensures stands { IfOk result (λ how. IsWhole how → Told (R.left source.old) (R.left source.new) (λ before after.
        IsSomeAnd left.new (λ core. core.engine ≡ (run own.now (records_in own.now before) turns).state))) }

    ensures unread { IsErrOf result Cut.ReadFault → Rose (R.faults source.old) (R.faults source.new) }
    ensures unwritten { IsErrOf result Cut.Unwritten → Rose (W.faults sink.old) (W.faults sink.new) }
    ensures reads_counted { R.faults source.old ≤ R.faults source.new }
    ensures writes_counted { W.faults sink.old ≤ W.faults sink.new }
    ensures idle { turns ≡ 0 → source.new ≡ source.old }
{
    let mut events = Seq::new(alloc);
    let started = Core::start(alloc, own.program(), &mut events);
    run_started(
        alloc,
        started,
        events.as_slice(),
        own,
        pick,
        turns,
        source,
        sink,
        left,
    )
}

/// Runs a program behind the start of an engine of it, in whatever order its parts move, for at most
/// this many turns, which are no more than 1,000,000,000: `started` is what the start came to, an engine in
/// which no more than 2^62 parts were born, and `events` are the events that it told, whose lines are handed
/// on before the first record is wanted. Leaves the engine in `left`.
pub fn run_started<E: Advance + Drop, R: Source, W: Sink>(
    alloc: Global,
    started: Result<E, TurnEnd>,
    events: &[Event],
    own: &Running<'_>,
    pick: Pick,
    turns: u64,
    source: &mut R,
    sink: &mut W,
    left: &mut Option<E>,
) -> Result<Finish, Cut>
    requires starts { IfOk started (λ engine. Starts own.now (E.program engine) (E.engine (E.state engine))) }
    requires births { IfOk started (λ engine. E.born engine ≤ 2 ^ 62) }
    requires turns { turns ≤ 1_000_000_000 }

    ensures comes { (begins : told.Told E.State) → Begins E.state begins events.now started → Told (R.left source.old) (R.left source.new) (λ before.
        ComesWhole own.now pick (λ records. run_by E.engine (E.advance own.now.model) begins own.now records turns) (records_in own.now before) (W.written sink.old) (W.written sink.new) result before) }
    ensures taken { (begins : told.Told E.State) → Begins E.state begins events.now started → Told (R.left source.old) (R.left source.new) (λ before.
        TakesWanted (λ records. run_by E.engine (E.advance own.now.model) begins own.now records turns) (records_in own.now before) [] before) }
    ensures quiet { result ≡ Ok Finish.Quiet → Told (R.left source.old) (R.left source.new) (λ _ after. after ≡ []) }

    ensures left { IfOk result (λ how. IsWhole how → IsSomeAnd left.new (λ engine. (E.program engine ≡ own.now.model) × (is_some (E.engine (E.state engine)).tree ≡ true))) }
    ensures stands { (begins : told.Told E.State) → Begins E.state begins events.now started → IfOk result (λ how. IsWhole how → Told (R.left source.old) (R.left source.new) (λ before after.
        IsSomeAnd left.new (λ engine. E.engine (E.state engine) ≡ (run_by E.engine (E.advance own.now.model) begins own.now (records_in own.now before) turns).state))) }

    ensures unread { IsErrOf result Cut.ReadFault → Rose (R.faults source.old) (R.faults source.new) }
    ensures unwritten { IsErrOf result Cut.Unwritten → Rose (W.faults sink.old) (W.faults sink.new) }
    ensures reads_counted { R.faults source.old ≤ R.faults source.new }
    ensures writes_counted { W.faults sink.old ≤ W.faults sink.new }
    ensures idle { turns ≡ 0 → source.new ≡ source.old }
{
    let mut text = Text::new(alloc);
    if let Err(Memory) = write_events(events, own, pick, &mut text) {
        return Err(Cut::Memory);
    }
    match started {
        Ok(mut engine) => {
            if let Err(cut) = hand_on(&mut text, sink) {
                return Err(cut);
            }
            let mut reader = match InputReader::new(alloc) {
                Ok(reader) => reader,
                Err(Memory) => return Err(Cut::Memory),
            };
            let answer = go(
                alloc,
                &mut engine,
                &mut reader,
                source,
                sink,
                own,
                pick,
                turns,
            );
            *left = Some(engine);
            answer
        }
        Err(end) => not_started(end, own, pick, &mut text, sink),
    }
}

/// Ends a run that did not start.
fn not_started<W: Sink>(
    end: TurnEnd,
    own: &Running<'_>,
    pick: Pick,
    text: &mut Text,
    sink: &mut W,
) -> Result<Finish, Cut>
    ensures faulted { StartsFaulted own.now pick end text.old (W.written sink.old) (W.written sink.new) result }
    ensures cause { IsErrOf result Cut.Unwritten → Rose (W.faults sink.old) (W.faults sink.new) }
    ensures counted { W.faults sink.old ≤ W.faults sink.new }
{
    match finish_of(end, own) {
        Ok(how) => finish(how, 0, 0, own, text, sink),
        Err(Memory) => Err(Cut::Memory),
    }
}

//! The turns of an engine on the records of an input.

ghost use Rattle.std.specs.Prelude.{ℕ, ◌≡◌, ◌≢◌, ◌⊎◌, ◌+◌, ◌<◌, ◌≤◌, ◌^◌, [], ◌++◌, true, false, is_some, OnOk, IfOk, OnErr, IfErr, IfSome, IsErrOf};
ghost use Rattle.std.specs.Option.{option_copied};
ghost use Rattle.dsde_io.specs.Fault.{Rose};
ghost use Rattle.dsde_io.specs.Bytes.{Gains, GainsFront};
ghost use Rattle.dsde_sim_tree.specs.declared.event.Event.TheVariants as event;
ghost use Rattle.dsde_sim_tree.specs.Engine.{Engine};
ghost use Rattle.dsde_input.specs.Reader.{IsOffence, least_time};
ghost use Rattle.dsde_run_meaning.specs.Run.{ended, offended};
ghost use Rattle.dsde_run.specs.Run.{go_by, faulted, kept_text, event_text};
ghost use Rattle.dsde_run.specs.Reading.{Told, IsWhole, TakesWanted, Comes, IsFront};
ghost use Rattle.dsde_run.specs.Steps.{HandsOn, Turns, Readies, Bears, IsRoot, IsUnspent, Stops, line_of, IsReady, IsUnready, Halts, Asked, Refused, ComesBy, Waits, passed, record_of, to_give};

use crate::{Advance, Running};
use dsde_input::{InputEnd, InputReader};
use dsde_io::{Sink, SinkEnd, Source, write_all};
use dsde_sim_tree::{Event, Fault, Finish, InputKind, Step, TurnEnd};
use dsde_trace::{Pick, picked, write_end};
use dsde_values::{Arrival, Memory, Seq, Text};
use std::alloc::Global;

/// So many bytes of a trace are kept at most before a turn begins.
const MOST_KEPT: usize = 65_536;

/// Why a run is cut short.
#[derive(Clone, Copy)]
pub enum Cut {
    /// A read of the input failed.
    ReadFault,
    /// A write of the trace failed.
    Unwritten,
    Memory,
}

impl From<Memory> for Cut {
    ghost use Rattle.std.specs.Prelude.{◌≡◌};
    ghost use Rattle.dsde_run.specs.declared.run.Cut.TheVariants as cut;

    ghost from_gives = { λ _ why. why ≡ cut.Memory };

    fn from(_: Memory) -> Cut {
        Cut::Memory
    }
}

/// The head of an input.
#[derive(Drop)]
enum Head {
    /// It was not asked for.
    Wanted,
    /// The input is at its end.
    Over,
    /// The next record.
    Is(Arrival),
}

impl Head {
    /// The record, where there is one.
    fn record(&self) -> Option<&Arrival>
        ensures { option_copied result ≡ record_of self.now }
    {
        match self {
            Head::Wanted | Head::Over => None,
            Head::Is(arrival) => Some(arrival),
        }
    }

    /// A turn is done, which took the head or left it.
    fn pass(&mut self, took_input: bool)
        ensures { self.new ≡ passed self.old took_input }
    {
        match self {
            Head::Is(_) if took_input => *self = Head::Wanted,
            _ => {}
        }
    }
}

/// Why the head is not there.
enum Unready {
    /// It is no record, or it could not be read.
    Refused(InputEnd),
    /// The lines before it could not be handed on.
    Unwritten(Cut),
}

/// What a turn comes to.
enum After {
    /// The run goes on. `took_input` says whether the head of the input was taken.
    Turned { took_input: bool },
    /// The run has ended, and its last line is written.
    Ended(Finish),
}

/// At most this many turns. The lines of a turn are handed on before the next record is asked for.
pub(crate) fn go<E: Advance, R: Source, W: Sink>(
    alloc: Global,
    engine: &mut E,
    reader: &mut InputReader,
    source: &mut R,
    sink: &mut W,
    own: &Running<'_>,
    pick: Pick,
    turns: u64,
) -> Result<Finish, Cut>
    requires program { E.program engine.old ≡ own.now.model }
    requires root { IsRoot own.now (E.engine (E.state engine.old)) }
    requires fresh { is_some (E.engine (E.state engine.old)).tree ≡ true }
    requires in_time { (E.engine (E.state engine.old)).time ≤ least_time reader.old }
    requires bounded { (E.engine (E.state engine.old)).turn + turns < 2 ^ 63 }
    requires few { turns ≤ 1_000_000_000 }
    requires births { E.born engine.old ≤ 2 ^ 62 }

    ensures comes { Told (R.left source.old) (R.left source.new) (λ before.
        Comes own.now pick (λ records. go_by E.engine (E.advance own.now.model) own.now turns records (E.state engine.old)) (to_give own.now reader.old before)
        (E.engine (E.state engine.new)) (W.written sink.old) (W.written sink.new) result reader.old.held before) }
    ensures taken { Told (R.left source.old) (R.left source.new) (λ before.
        TakesWanted (λ records. go_by E.engine (E.advance own.now.model) own.now turns records (E.state engine.old)) (to_give own.now reader.old before) reader.old.held before) }
    ensures quiet { reader.old.ended ≡ false → result ≡ Ok Finish.Quiet → Told (R.left source.old) (R.left source.new) (λ _ after. after ≡ []) }

    ensures program { E.program engine.new ≡ E.program engine.old }
    ensures unspent { IfOk result (λ how. IsWhole how → is_some (E.engine (E.state engine.new)).tree ≡ true) }
    ensures unspent_cut { IsErrOf result Cut.ReadFault → is_some (E.engine (E.state engine.new)).tree ≡ true }

    ensures unread { IsErrOf result Cut.ReadFault → Rose (R.faults source.old) (R.faults source.new) }
    ensures unwritten { IsErrOf result Cut.Unwritten → Rose (W.faults sink.old) (W.faults sink.new) }
    ensures reads_counted { R.faults source.old ≤ R.faults source.new }
    ensures writes_counted { W.faults sink.old ≤ W.faults sink.new }
    ensures idle { turns ≡ 0 → (source.new ≡ source.old) × (reader.new ≡ reader.old) }
{
    let mut events = Seq::new(alloc);
    let mut text = Text::new(alloc);
    let mut head = Head::Wanted;
    for _turn in 0..turns {
        if let Err(why) = ready(&mut head, reader, source, own, &mut text, sink) {
            return halt(why, engine.turn(), engine.time(), own, &mut text, sink);
        }
        let after = match turn(engine, &head, own, pick, &mut events, &mut text) {
            Ok(after) => after,
            Err(Memory) => return Err(Cut::Memory),
        };
        match after {
            After::Turned { took_input } => head.pass(took_input),
            After::Ended(how) => return close(how, &mut text, sink),
        }
        if let Err(cut) = hand_on_much(&mut text, sink) {
            return Err(cut);
        }
    }
    finish(
        Finish::Bound,
        engine.turn(),
        engine.time(),
        own,
        &mut text,
        sink,
    )
}

/// Sees to it that the head was asked for. Where it is asked for, what is kept of the trace is
/// handed on first.
fn ready<R: Source, W: Sink>(
    head: &mut Head,
    reader: &mut InputReader,
    source: &mut R,
    own: &Running<'_>,
    text: &mut Text,
    sink: &mut W,
) -> Result<(), Unready>
    ensures ready { OnOk result (Told (R.left source.old) (R.left source.new)
        (IsReady own.now reader.old reader.new head.old head.new (W.written sink.old) (W.written sink.new) text.old text.new)) }
    ensures refused { IfErr result (λ why. Told (R.left source.old) (R.left source.new)
        (IsUnready own.now reader.old head.old (W.written sink.old) (W.written sink.new) text.old text.new why)) }
    ensures waits { OnOk result ((time : ℕ) → Waits own.now time reader.old head.old → Waits own.now time reader.new head.new) }
    ensures known { OnOk result (head.new ≢ Head.Wanted) }
    ensures unread { IsErrOf result (Unready.Refused InputEnd.ReadFault) → Rose (R.faults source.old) (R.faults source.new) }
    ensures unwritten { IsErrOf result (Unready.Unwritten Cut.Unwritten) → Rose (W.faults sink.old) (W.faults sink.new) }
    ensures no_read { IfErr result (λ why. why ≢ Unready.Unwritten Cut.ReadFault) }
    ensures reads_counted { R.faults source.old ≤ R.faults source.new }
    ensures writes_counted { W.faults sink.old ≤ W.faults sink.new }
{
    if !matches!(head, Head::Wanted) {
        return Ok(());
    }
    if let Err(cut) = hand_on(text, sink) {
        return Err(Unready::Unwritten(cut));
    }
    match ask(reader, source, own) {
        Ok(found) => {
            *head = found;
            Ok(())
        }
        Err(why) => Err(Unready::Refused(why)),
    }
}

/// Asks for the head of the input.
fn ask<R: Source>(
    reader: &mut InputReader,
    source: &mut R,
    own: &Running<'_>,
) -> Result<Head, InputEnd>
    ensures asked { IfOk result (λ head. Told (R.left source.old) (R.left source.new) (Asked own.now reader.old reader.new head)) }
    ensures refused { IfErr result (λ why. Told (R.left source.old) (R.left source.new) (Refused own.now reader.old why)) }
    ensures waits { IfOk result (λ head. (time : ℕ) → time ≤ least_time reader.old → Waits own.now time reader.new head) }
    ensures known { IfOk result (λ head. head ≢ Head.Wanted) }
    ensures cause { IsErrOf result InputEnd.ReadFault → Rose (R.faults source.old) (R.faults source.new) }
    ensures counted { R.faults source.old ≤ R.faults source.new }
{
    match reader.next(source, own.ins(), own.types()) {
        Ok(Some(arrival)) => Ok(Head::Is(arrival)),
        Ok(None) => Ok(Head::Over),
        Err(why) => Err(why),
    }
}

/// Hands on what is kept of a trace.
pub(crate) fn hand_on<W: Sink>(text: &mut Text, sink: &mut W) -> Result<(), Cut>
    ensures handed { OnOk result (HandsOn (W.written sink.old) (W.written sink.new) text.old text.new) }
    ensures empty { OnOk result (text.new ≡ []) }
    ensures front { OnErr result (GainsFront (W.written sink.old) (W.written sink.new) text.old) }
    ensures cause { IsErrOf result Cut.Unwritten → Rose (W.faults sink.old) (W.faults sink.new) }
    ensures no_read { IfErr result (λ why. why ≢ Cut.ReadFault) }
    ensures counted { W.faults sink.old ≤ W.faults sink.new }
{
    match write_all(sink, text.as_slice()) {
        Ok(()) => {
            text.truncate(0);
            Ok(())
        }
        Err(SinkEnd::Failed) => Err(Cut::Unwritten),
        Err(SinkEnd::Memory) => Err(Cut::Memory),
    }
}

/// Hands on what is kept of a trace, where it is much.
fn hand_on_much<W: Sink>(text: &mut Text, sink: &mut W) -> Result<(), Cut>
    ensures handed { OnOk result (HandsOn (W.written sink.old) (W.written sink.new) text.old text.new) }
    ensures front { OnErr result (GainsFront (W.written sink.old) (W.written sink.new) text.old) }
    ensures cause { IsErrOf result Cut.Unwritten → Rose (W.faults sink.old) (W.faults sink.new) }
    ensures no_read { IfErr result (λ why. why ≢ Cut.ReadFault) }
    ensures counted { W.faults sink.old ≤ W.faults sink.new }
{
    if text.len() < MOST_KEPT {
        return Ok(());
    }
    hand_on(text, sink)
}

/// Takes one turn with this head of the input. Its events are put into a list that is empty, and are
/// taken out again, so that one list serves all turns.
fn turn<E: Advance>(
    engine: &mut E,
    head: &Head,
    own: &Running<'_>,
    pick: Pick,
    events: &mut Seq<Event>,
    text: &mut Text,
) -> Result<After, Memory>
    requires program { E.program engine.old ≡ own.now.model }
    requires fresh { is_some (E.engine (E.state engine.old)).tree ≡ true }
    requires turns { (E.engine (E.state engine.old)).turn < 2 ^ 63 }
    requires root { IsRoot own.now (E.engine (E.state engine.old)) }
    requires comes { IfSome (record_of head.now) (ComesBy own.now) }
    requires late { IfSome (record_of head.now) (λ arrival. (E.engine (E.state engine.old)).time ≤ arrival.time) }
    requires births { E.born engine.old < 2 ^ 63 + 2 ^ 62 }
    requires empty { events.old ≡ [] }
    ensures turns { IfOk result (Turns E.engine (E.advance own.now.model) own.now pick (E.state engine.old) (record_of head.now) (E.state engine.new) text.old text.new) }
    ensures program { E.program engine.new ≡ E.program engine.old }
    ensures readies { IfOk result (Readies (E.engine (E.state engine.old)) (E.engine (E.state engine.new)) (record_of head.now)) }
    ensures unspent { IfOk result (IsUnspent (E.engine (E.state engine.new))) }
    ensures quiet { IfOk result (λ after. after ≡ After.Ended Finish.Quiet → record_of head.now ≡ None) }
    ensures emptied { OnOk result (events.new ≡ []) }
    ensures births { IfOk result (Bears (E.born engine.old) (E.born engine.new)) }
{
    own.comes();
    let head = head.record();
    let done = engine.turn();
    let last = engine.time();
    let time = engine.turn_time(head).unwrap_or(last);
    let step = engine.advance(head, events);
    write_events(events.as_slice(), own, pick, text)?;
    events.truncate(0);
    match step {
        Ok(Step::Turned { took_input }) => Ok(After::Turned { took_input }),
        Ok(Step::Quiet) => last_line(Finish::Quiet, done, last, own, text),
        Err(end) => last_line(finish_of(end, own)?, done + 1, time, own, text),
    }
}

/// Appends the last line of a trace. Hands back that the run has ended so.
fn last_line(
    how: Finish,
    turns: u64,
    time: u64,
    own: &Running<'_>,
    text: &mut Text,
) -> Result<After, Memory>
    ensures { IfOk result (λ after. (after ≡ After.Ended how) × (text.new ≡ text.old ++ event_text own.now (event.Finish how turns time))) }
{
    write_end(&how, turns, time, text)?;
    Ok(After::Ended(how))
}

/// How a run ends whose start or turn did not come to its end. `Memory` comes exactly where that is
/// why it did not.
pub fn finish_of(end: TurnEnd, own: &Running<'_>) -> Result<Finish, Memory>
    ensures not_whole { IfOk result (λ how. ¬ (IsWhole how)) }
    ensures fault { IfOk result (λ how. (turns time : ℕ) (engine : Engine) → faulted own.now end turns time engine ≡ ended how turns time engine) }
    ensures not_quiet { IfOk result (λ how. how ≢ Finish.Quiet) }
    ensures memory { OnErr result (end ≡ TurnEnd.Memory) }
{
    match end {
        TurnEnd::Memory => Err(Memory),
        TurnEnd::Fault {
            path,
            site,
            kind,
            at,
        } => {
            let (line, column) = own.spot(at);
            Ok(Finish::Fault(Fault {
                path,
                site,
                kind,
                line,
                column,
            }))
        }
    }
}

/// Appends the lines of events that are kept. Without memory the text has some of them.
pub(crate) fn write_events(
    events: &[Event],
    own: &Running<'_>,
    pick: Pick,
    text: &mut Text,
) -> Result<(), Memory>
    ensures ok { OnOk result (text.new ≡ text.old ++ kept_text own.now pick events.now) }
{
    for event in events {
        if picked(event, pick) {
            own.write_event(event, text)?;
        }
    }
    Ok(())
}

/// Ends a run whose head is not there.
fn halt<W: Sink>(
    why: Unready,
    turns: u64,
    time: u64,
    own: &Running<'_>,
    text: &mut Text,
    sink: &mut W,
) -> Result<Finish, Cut>
    ensures halts { Halts own.now why turns time text.old (W.written sink.old) (W.written sink.new) result }
    ensures unread { IsErrOf result Cut.ReadFault → (why ≡ Unready.Refused InputEnd.ReadFault) ⊎ (why ≡ Unready.Unwritten Cut.ReadFault) }
    ensures cause { IsErrOf result Cut.Unwritten → (why ≡ Unready.Unwritten Cut.Unwritten) ⊎ Rose (W.faults sink.old) (W.faults sink.new) }
    ensures counted { W.faults sink.old ≤ W.faults sink.new }
{
    match why {
        Unready::Refused(why) => stop(why, turns, time, own, text, sink),
        Unready::Unwritten(cut) => Err(cut),
    }
}

/// Ends a run that wants a head which is no record, or which is not there.
fn stop<W: Sink>(
    why: InputEnd,
    turns: u64,
    time: u64,
    own: &Running<'_>,
    text: &mut Text,
    sink: &mut W,
) -> Result<Finish, Cut>
    ensures ok { IfOk result (Stops own.now why turns time text.old (W.written sink.old) (W.written sink.new)) }
    ensures cut { IsErrOf result Cut.ReadFault → (why ≡ InputEnd.ReadFault) × (sink.new ≡ sink.old) }
    ensures front { IfErr result (λ cut. cut ≢ Cut.ReadFault
        → (engine : Engine) → engine.turn ≡ turns → engine.time ≡ time
        → IsFront (W.written sink.old) (W.written sink.new) (text.old ++ line_of own.now (offended why engine))) }
    ensures cause { IsErrOf result Cut.Unwritten → Rose (W.faults sink.old) (W.faults sink.new) }
    ensures counted { W.faults sink.old ≤ W.faults sink.new }
{
    match offence_of(why) {
        Ok(how) => finish(how, turns, time, own, text, sink),
        Err(cut) => Err(cut),
    }
}

/// How a run ends that wants a head which is no record, or why it is cut short.
fn offence_of(why: InputEnd) -> Result<Finish, Cut>
    ensures offence { IfOk result (λ how. IsOffence why) }
    ensures end { IfOk result (λ how. (engine : Engine) → offended why engine ≡ ended how engine.turn engine.time engine) }
    ensures read { IsErrOf result Cut.ReadFault → why ≡ InputEnd.ReadFault }
    ensures cut { IfErr result (λ cut. cut ≢ Cut.Unwritten) }
{
    let (kind, line) = match why {
        InputEnd::BadLine(line) => (InputKind::BadLine, line),
        InputEnd::Backwards(line) => (InputKind::Backwards, line),
        InputEnd::LineTooLong(line) => (InputKind::LineTooLong, line),
        InputEnd::ReadFault => return Err(Cut::ReadFault),
        InputEnd::Memory => return Err(Cut::Memory),
    };
    Ok(Finish::Input { kind, line })
}

/// Appends the last line of a trace, and hands on what is kept of it. Hands back how the run ended.
pub(crate) fn finish<W: Sink>(
    how: Finish,
    turns: u64,
    time: u64,
    own: &Running<'_>,
    text: &mut Text,
    sink: &mut W,
) -> Result<Finish, Cut>
    ensures ok { IfOk result (λ answer. (answer ≡ how) × Gains (W.written sink.old) (W.written sink.new) (text.old ++ event_text own.now (event.Finish how turns time))) }
    ensures front { OnErr result (IsFront (W.written sink.old) (W.written sink.new) (text.old ++ event_text own.now (event.Finish how turns time))) }
    ensures cause { IsErrOf result Cut.Unwritten → Rose (W.faults sink.old) (W.faults sink.new) }
    ensures no_read { IfErr result (λ why. why ≢ Cut.ReadFault) }
    ensures counted { W.faults sink.old ≤ W.faults sink.new }
{
    write_end(&how, turns, time, text)?;
    close(how, text, sink)
}

/// Hands on what is kept of a trace that has its last line. Hands back how the run ended.
fn close<W: Sink>(how: Finish, text: &mut Text, sink: &mut W) -> Result<Finish, Cut>
    ensures ok { IfOk result (λ answer. (answer ≡ how) × Gains (W.written sink.old) (W.written sink.new) text.old) }
    ensures front { OnErr result (GainsFront (W.written sink.old) (W.written sink.new) text.old) }
    ensures cause { IsErrOf result Cut.Unwritten → Rose (W.faults sink.old) (W.faults sink.new) }
    ensures no_read { IfErr result (λ why. why ≢ Cut.ReadFault) }
    ensures counted { W.faults sink.old ≤ W.faults sink.new }
{
    hand_on(text, sink)?;
    Ok(how)
}

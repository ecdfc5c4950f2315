//! The events of a run, counted turn by turn.

ghost use Rattle.std.specs.Prelude.{◌≡◌, ◌+◌, ◌<◌, ◌≤◌, ◌^◌, [], true, is_some, IfOk, IfSome};
ghost use Rattle.dsde_input_records.specs.Records.{end};
ghost use Rattle.dsde_trace.specs.Count.{counts_from, none_counted};
ghost use Rattle.dsde_run.specs.Run.{go, run};
ghost use Rattle.dsde_run.specs.Counting.{Counts, CountsTurn, EndsCounted, IsNextTurn, IsOwnEnd, total};

use crate::{Advance, Running, finish_of};
use dsde_core::Core;
use dsde_sim_tree::{Event, Finish, Step};
use dsde_trace::{Summary, count_event};
use dsde_values::{Memory, Seq};
use std::alloc::Global;

/// How many events of each kind a run told, and how it ended: after how many turns, and when.
#[derive(Drop)]
pub struct Counted {
    pub summary: Summary,
    pub how: Finish,
    pub turns: u64,
    pub time: u64,
}

/// How a run ended: after how many turns, and when.
#[derive(Drop)]
struct Ending {
    how: Finish,
    turns: u64,
    time: u64,
}

/// Runs a program without input, from its start for at most this many turns, and counts the events
/// of its trace. `Memory` comes where memory ran out.
pub fn count_run(alloc: Global, own: &Running<'_>, turns: u64) -> Result<Counted, Memory>
    requires { turns ≤ 1_000_000_000 }
    ensures counts { IfOk result (Counts (run own.now end turns)) }
    ensures own_end { IfOk result (λ counted. IsOwnEnd counted.how) }
{
    let mut events = Seq::new(alloc);
    let mut summary = none_counted();
    let started = Core::start(alloc, own.program(), &mut events);
    count_events(events.as_slice(), &mut summary);
    events.truncate(0);
    match started {
        Ok(mut core) => match count_turns(&mut core, own, &mut events, &mut summary, turns) {
            Ok(ending) => Ok(Counted {
                summary,
                how: ending.how,
                turns: ending.turns,
                time: ending.time,
            }),
            Err(Memory) => Err(Memory),
        },
        Err(end) => match finish_of(end, own) {
            Ok(how) => Ok(Counted {
                summary,
                how,
                turns: 0,
                time: 0,
            }),
            Err(Memory) => Err(Memory),
        },
    }
}

/// A count of no events.
fn none_counted() -> Summary
    ensures { result ≡ none_counted }
{
    Summary {
        turns: 0,
        adds: 0,
        drops: 0,
        gets: 0,
        moves: 0,
        outs: 0,
    }
}

/// Takes at most this many turns, and counts their events behind those that were counted. The list
/// of events is empty, and serves each turn.
fn count_turns(
    core: &mut Core<'_>,
    own: &Running<'_>,
    events: &mut Seq<Event>,
    summary: &mut Summary,
    turns: u64,
) -> Result<Ending, Memory>
    requires program { core.old.program ≡ own.now.model }
    requires fresh { is_some core.old.engine.tree ≡ true }
    requires bounded { core.old.engine.turn + turns < 2 ^ 63 }
    requires few { turns ≤ 1_000_000_000 }
    requires births { core.old.born ≤ 2 ^ 62 }
    requires room { total summary.old ≤ 2 ^ 64 }
    requires empty { events.old ≡ [] }
    ensures counts { IfOk result (EndsCounted summary.old (go own.now turns end core.old.engine) summary.new) }
    ensures own_end { IfOk result (λ ending. IsOwnEnd ending.how) }
{
    for _turn in 0..turns {
        if let Some(ending) = count_turn(core, own, events, summary)? {
            return Ok(ending);
        }
    }
    Ok(Ending {
        how: Finish::Bound,
        turns: core.turn(),
        time: core.time(),
    })
}

/// Takes one turn without a head of the input, and counts its events; or the run has ended.
fn count_turn(
    core: &mut Core<'_>,
    own: &Running<'_>,
    events: &mut Seq<Event>,
    summary: &mut Summary,
) -> Result<Option<Ending>, Memory>
    requires program { core.old.program ≡ own.now.model }
    requires fresh { is_some core.old.engine.tree ≡ true }
    requires turns { core.old.engine.turn < 2 ^ 63 }
    requires births { core.old.born < 2 ^ 63 + 2 ^ 62 }
    requires room { total summary.old ≤ 2 ^ 127 }
    requires empty { events.old ≡ [] }
    ensures counts { IfOk result (CountsTurn own.now core.old.engine core.new.engine summary.old summary.new) }
    ensures own_end { IfOk result (λ found. IfSome found (λ ending. IsOwnEnd ending.how)) }
    ensures next { IfOk result (λ found. found ≡ None → IsNextTurn core.old core.new) }
    ensures few { total summary.new ≤ total summary.old + 2 ^ 64 }
    ensures emptied { events.new ≡ [] }
{
    let done = core.turn();
    let last = core.time();
    let time = core.turn_time(None).unwrap_or(last);
    let step = Advance::advance(core, None, events);
    count_events(events.as_slice(), summary);
    events.truncate(0);
    match step {
        Ok(Step::Turned { .. }) => Ok(None),
        Ok(Step::Quiet) => Ok(Some(Ending {
            how: Finish::Quiet,
            turns: done,
            time: last,
        })),
        Err(end) => match finish_of(end, own) {
            Ok(how) => Ok(Some(Ending {
                how,
                turns: done + 1,
                time,
            })),
            Err(Memory) => Err(Memory),
        },
    }
}

/// Counts events.
fn count_events(events: &[Event], summary: &mut Summary)
    requires { total summary.old ≤ 2 ^ 127 }
    ensures counted { summary.new ≡ counts_from summary.old events.now }
    ensures few { total summary.new ≤ total summary.old + 2 ^ 64 }
{
    for event in events {
        count_event(summary, event);
    }
}

//! Last lines.

ghost use Rattle.std.specs.Prelude.{decimal, IfOk};
ghost use Rattle.dsde_syntax.specs.declared.decl.Model.{Model};
ghost use Rattle.dsde_trace.specs.Text.{input_text, kind_text, site_text};
ghost use Rattle.dsde_trace_words.specs.Words.{Finds, IsAny, IsCount, IsPlace, NoneBefore, Pairs, Spells, place_text};
ghost use Rattle.dsde_trace_words.specs.declared.names.Ending.TheVariants as ending;
ghost use Rattle.dsde_trace_words.specs.declared.names.LineWord.TheVariants as line_word;
ghost use Rattle.dsde_trace_reading.specs.Parts.{IsEnded, IsKinded, IsLined, IsPlaced, IsSited, IsTimes, Reads, closing_text, ended_text, kinded_text, lined_text, placed_text, sited_text};

use crate::parts::times_of;
use dsde_faults::{FaultKind, Site};
use dsde_sim_tree::{Event, Fault, Finish, InputKind};
use dsde_trace_words::{
    Ending, behind, cut, ending_of, fault_kind_of, input_kind_of, number_of, path_of, place_of,
    site_of,
};
use dsde_values::Memory;
use std::alloc::Global;

/// `turns K at T`.
type Times = (u64, u64);

/// A fault's place, and the end of the line.
type Placed = ((u32, u32), Times);

/// Behind a fault's path: its site, its kind, its place, and the end of the line.
type Sited = (Site, (FaultKind, Placed));

/// How a run ended, after how many turns and when.
pub fn read_end(alloc: Global, text: &[u8]) -> Result<Option<Event>, Memory>
    ensures { IfOk result (λ found. (model : Model) → Reads model line_word.End text.now found) }
{
    let Some((word, rest)) = cut(text) else {
        return Ok(None);
    };
    let Some(ending) = ending_of(word) else {
        return Ok(None);
    };
    match ended_of(alloc, ending, rest)? {
        Some((how, times)) => {
            let (turns, time) = times;
            Ok(Some(Event::Finish { how, turns, time }))
        }
        None => Ok(None),
    }
}

/// What stands behind the word for an end.
fn ended_of(alloc: Global, ending: Ending, text: &[u8]) -> Result<Option<(Finish, Times)>, Memory>
    ensures { IfOk result (Finds NoneBefore (Spells (IsEnded ending) ended_text text.now)) }
{
    match ending {
        Ending::Bound => Ok(bound_of(text)),
        Ending::Quiet => Ok(quiet_of(text)),
        Ending::Input => Ok(input_of(text)),
        Ending::Fault => fault_of(alloc, text),
    }
}

/// All turns are done.
fn bound_of(text: &[u8]) -> Option<(Finish, Times)>
    ensures { Finds NoneBefore (Spells (IsEnded ending.Bound) ended_text text.now) result }
{
    match closing_of(text) {
        Some(times) => Some((Finish::Bound, times)),
        None => None,
    }
}

/// Nothing is left to come.
fn quiet_of(text: &[u8]) -> Option<(Finish, Times)>
    ensures { Finds NoneBefore (Spells (IsEnded ending.Quiet) ended_text text.now) result }
{
    match closing_of(text) {
        Some(times) => Some((Finish::Quiet, times)),
        None => None,
    }
}

/// `turns K at T`.
fn closing_of(text: &[u8]) -> Option<Times>
    ensures { Finds NoneBefore (Spells IsTimes closing_text text.now) result }
{
    match behind(text, b"turns ") {
        Some(rest) => times_of(rest),
        None => None,
    }
}

/// A bad line: `KIND LINE turns K at T`.
fn input_of(text: &[u8]) -> Option<(Finish, Times)>
    ensures { Finds NoneBefore (Spells (IsEnded ending.Input) ended_text text.now) result }
{
    match wrong_of(text) {
        Some((kind, lined)) => {
            let (line, times) = lined;
            Some((Finish::Input { kind, line }, times))
        }
        None => None,
    }
}

/// What is wrong with a line, and what follows.
fn wrong_of(text: &[u8]) -> Option<(InputKind, (u64, Times))>
    ensures { Pairs IsAny input_text NoneBefore (λ _. IsLined) (λ _. lined_text) text.now result }
{
    let Some((kind, rest)) = cut(text) else {
        return None;
    };
    let Some(kind) = input_kind_of(kind) else {
        return None;
    };
    match lined_of(rest) {
        Some(lined) => Some((kind, lined)),
        None => None,
    }
}

/// A line's number, and what follows.
fn lined_of(text: &[u8]) -> Option<(u64, Times)>
    ensures { Pairs IsCount decimal NoneBefore (λ _. IsTimes) (λ _. closing_text) text.now result }
{
    let Some((line, rest)) = cut(text) else {
        return None;
    };
    let Some(line) = number_of(line) else {
        return None;
    };
    match closing_of(rest) {
        Some(times) => Some((line, times)),
        None => None,
    }
}

/// A fault: `PATH SITE KIND LINE:COLUMN turns K at T`.
fn fault_of(alloc: Global, text: &[u8]) -> Result<Option<(Finish, Times)>, Memory>
    ensures { IfOk result (Finds NoneBefore (Spells (IsEnded ending.Fault) ended_text text.now)) }
{
    let Some((path, rest)) = cut(text) else {
        return Ok(None);
    };
    let Some(path) = path_of(alloc, path)? else {
        return Ok(None);
    };
    match sited_of(rest) {
        Some((site, kinded)) => {
            let (kind, placed) = kinded;
            let (place, times) = placed;
            let (line, column) = place;
            let fault = Fault {
                path,
                site,
                kind,
                line,
                column,
            };
            Ok(Some((Finish::Fault(fault), times)))
        }
        None => Ok(None),
    }
}

/// A fault's site, and what follows.
fn sited_of(text: &[u8]) -> Option<Sited>
    ensures { Pairs IsAny site_text NoneBefore (λ _. IsKinded) (λ _. kinded_text) text.now result }
{
    let Some((site, rest)) = cut(text) else {
        return None;
    };
    let Some(site) = site_of(site) else {
        return None;
    };
    match kinded_of(rest) {
        Some(kinded) => Some((site, kinded)),
        None => None,
    }
}

/// A fault's kind, and what follows.
fn kinded_of(text: &[u8]) -> Option<(FaultKind, Placed)>
    ensures { Pairs IsAny kind_text NoneBefore (λ _. IsPlaced) (λ _. placed_text) text.now result }
{
    let Some((kind, rest)) = cut(text) else {
        return None;
    };
    let Some(kind) = fault_kind_of(kind) else {
        return None;
    };
    match placed_of(rest) {
        Some(placed) => Some((kind, placed)),
        None => None,
    }
}

/// A fault's place, and what follows.
fn placed_of(text: &[u8]) -> Option<Placed>
    ensures { Pairs IsPlace place_text NoneBefore (λ _. IsTimes) (λ _. closing_text) text.now result }
{
    let Some((place, rest)) = cut(text) else {
        return None;
    };
    let Some(place) = place_of(place) else {
        return None;
    };
    match closing_of(rest) {
        Some(times) => Some((place, times)),
        None => None,
    }
}

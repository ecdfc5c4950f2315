//! Lines of turns, of what is sent and received, of moves and of drops.

ghost use Rattle.std.specs.Prelude.{decimal, IfOk};
ghost use Rattle.dsde_syntax.specs.declared.decl.Model.{Model};
ghost use Rattle.dsde_values.specs.Path.{IsPath, path_text};
ghost use Rattle.dsde_trace_words.specs.Words.{Inverts, IsCount, NoneBefore, Pairs};
ghost use Rattle.dsde_trace_words.specs.declared.names.LineWord.TheVariants as line_word;
ghost use Rattle.dsde_trace_reading.specs.Parts.{Reads, at_text};

use crate::models::{outs_of, types_of};
use crate::searches::{got_of, moved_of};
use dsde_language::ModelId;
use dsde_sim_tree::Event;
use dsde_trace::given::program::Program;
use dsde_trace_words::{behind, cut, is_executive, number_of, passed_of, path_of};
use dsde_values::{Memory, Path};
use std::alloc::Global;

/// `K at T`.
pub fn read_turn(text: &[u8]) -> Option<Event>
    ensures { (model : Model) → Reads model line_word.Turn text.now result }
{
    match times_of(text) {
        Some((number, time)) => Some(Event::Turn { number, time }),
        None => None,
    }
}

/// A number and a time, `K at T`.
pub fn times_of(text: &[u8]) -> Option<(u64, u64)>
    ensures { Pairs IsCount decimal NoneBefore (λ _. IsCount) (λ _. at_text) text.now result }
{
    let Some((number, rest)) = cut(text) else {
        return None;
    };
    let Some(number) = number_of(number) else {
        return None;
    };
    match time_of(rest) {
        Some(time) => Some((number, time)),
        None => None,
    }
}

/// `at T`.
fn time_of(text: &[u8]) -> Option<u64>
    ensures { Inverts IsCount at_text text.now result }
{
    match behind(text, b"at ") {
        Some(rest) => number_of(rest),
        None => None,
    }
}

/// `root PORT VALUE`.
pub fn read_out(alloc: Global, text: &[u8], program: &Program) -> Result<Option<Event>, Memory>
    ensures { IfOk result (Reads program.now line_word.Out text.now) }
{
    let Some(rest) = behind(text, b"root ") else {
        return Ok(None);
    };
    match passed_of(alloc, rest, outs_of(program), types_of(program))? {
        Some((port, value)) => Ok(Some(Event::Out { port, value })),
        None => Ok(None),
    }
}

/// `PATH PORT VALUE`.
pub fn read_get(alloc: Global, text: &[u8], program: &Program) -> Result<Option<Event>, Memory>
    ensures { IfOk result (Reads program.now line_word.Get text.now) }
{
    let Some((path, rest)) = cut(text) else {
        return Ok(None);
    };
    let Some(path) = path_of(alloc, path)? else {
        return Ok(None);
    };
    match got_of(alloc, is_executive(&path), rest, program)? {
        Some((model, passed)) => {
            let (port, value) = passed;
            Ok(Some(Event::Get {
                path,
                model: ModelId(model),
                port,
                value,
            }))
        }
        None => Ok(None),
    }
}

/// `PATH KIND STATE next T`.
pub fn read_move(alloc: Global, text: &[u8], program: &Program) -> Result<Option<Event>, Memory>
    ensures { IfOk result (Reads program.now line_word.Move text.now) }
{
    let Some((path, rest)) = cut(text) else {
        return Ok(None);
    };
    let Some(path) = path_of(alloc, path)? else {
        return Ok(None);
    };
    match moved_of(alloc, is_executive(&path), rest, program)? {
        Some((kind, moved)) => {
            let (model, settled) = moved;
            let (state, next) = settled;
            Ok(Some(Event::Move {
                path,
                model: ModelId(model),
                kind,
                state,
                next,
            }))
        }
        None => Ok(None),
    }
}

/// `PATH COUNT`.
pub fn read_drop(alloc: Global, text: &[u8]) -> Result<Option<Event>, Memory>
    ensures { IfOk result (λ found. (model : Model) → Reads model line_word.Drop text.now found) }
{
    match counted_of(alloc, text)? {
        Some((path, count)) => Ok(Some(Event::Drop { path, count })),
        None => Ok(None),
    }
}

/// A path and a count.
fn counted_of(alloc: Global, text: &[u8]) -> Result<Option<(Path, u64)>, Memory>
    ensures { IfOk result (Pairs IsPath path_text NoneBefore (λ _. IsCount) (λ _. decimal) text.now) }
{
    let Some((path, rest)) = cut(text) else {
        return Ok(None);
    };
    let Some(path) = path_of(alloc, path)? else {
        return Ok(None);
    };
    match number_of(rest) {
        Some(count) => Ok(Some((path, count))),
        None => Ok(None),
    }
}

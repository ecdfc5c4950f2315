//! Lines, read back.

ghost use Rattle.std.specs.Prelude.{◌≡◌, Err, IfOk};
ghost use Rattle.dsde_sim_tree.specs.declared.event.Event.{Event};
ghost use Rattle.dsde_trace_words.specs.Words.{Finds};
ghost use Rattle.dsde_trace_reading.specs.Lines.{ComesBefore, IsFirst, IsLine};
ghost use Rattle.dsde_trace_reading.specs.Parts.{Reads};
ghost use Rattle.dsde_trace_reading.specs.declared.reading.ReadEvent.TheVariants as read_event;

use crate::added::read_add;
use crate::ends::read_end;
use crate::parts::{read_drop, read_get, read_move, read_out, read_turn};
use dsde_sim_tree::Event;
use dsde_trace::given::program::Program;
use dsde_trace_words::{LineWord, cut, line_word_of};
use dsde_values::Memory;
use std::alloc::Global;

/// Why no event was read.
#[derive(Clone, Copy)]
pub enum ReadEvent {
    /// The bytes are no lawful event's line.
    NotALine,
    /// Memory ran out.
    Memory,
}

/// The event of a run of the program whose line, without its line feed, the bytes are. The event is
/// lawful: its paths are paths, its numbers have their ranges, its models are those of the file, and
/// its ports and values are those of its models.
///
/// A line that tells what comes to a component, or how it moves, does not name its model: of several
/// events with that line this is the one with the least model, numbered in text order, and of that
/// model the one with the least port.
///
/// `NotALine` comes exactly where the bytes are the line of no lawful event, and `Memory` where memory
/// runs out; nothing is kept then.
pub fn read_event(alloc: Global, line: &[u8], program: &Program) -> Result<Event, ReadEvent>
    ensures line { IfOk result (IsLine program.now line.now) }
    ensures first { IfOk result (IsFirst program.now line.now) }
    ensures none { result ≡ Err read_event.NotALine → (event : Event) → ¬ (IsLine program.now line.now event) }
{
    let Ok(found) = event_of(alloc, line, program) else {
        return Err(ReadEvent::Memory);
    };
    match found {
        Some(event) => Ok(event),
        None => Err(ReadEvent::NotALine),
    }
}

/// The event whose line the bytes are, if there is one.
fn event_of(alloc: Global, line: &[u8], program: &Program) -> Result<Option<Event>, Memory>
    ensures { IfOk result (Finds ComesBefore (IsLine program.now line.now)) }
{
    let Some((front, rest)) = cut(line) else {
        return Ok(None);
    };
    match line_word_of(front) {
        Some(word) => event_behind(alloc, word, rest, program),
        None => Ok(None),
    }
}

/// The event whose line has these bytes behind this word.
fn event_behind(
    alloc: Global,
    word: LineWord,
    text: &[u8],
    program: &Program,
) -> Result<Option<Event>, Memory>
    ensures { IfOk result (Reads program.now word text.now) }
{
    match word {
        LineWord::Add => read_add(alloc, text, program),
        LineWord::Turn => Ok(read_turn(text)),
        LineWord::Out => read_out(alloc, text, program),
        LineWord::Get => read_get(alloc, text, program),
        LineWord::Move => read_move(alloc, text, program),
        LineWord::Drop => read_drop(alloc, text),
        LineWord::End => read_end(alloc, text),
    }
}

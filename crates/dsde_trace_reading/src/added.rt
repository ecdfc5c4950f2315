//! Lines of components that start.

ghost use Rattle.std.specs.Prelude.{IfOk};
ghost use Rattle.dsde_trace_words.specs.declared.names.LineWord.TheVariants as line_word;
ghost use Rattle.dsde_trace_reading.specs.Parts.{Reads};

use crate::searches::{net_of, started_of};
use dsde_language::ModelId;
use dsde_sim_tree::Event;
use dsde_sound_structures::names_are_words;
use dsde_trace::given::program::Program;
use dsde_trace_words::{cut, is_executive, path_of};
use dsde_values::Memory;
use std::alloc::Global;

/// `PATH MODEL`, or `PATH MODEL STATE next T`.
pub fn read_add(alloc: Global, text: &[u8], program: &Program) -> Result<Option<Event>, Memory>
    ensures { IfOk result (Reads program.now line_word.Add text.now) }
{
    program.right();
    // A law: the names of models are identifiers, so they have no space.
    names_are_words();
    let Some((path, rest)) = cut(text) else {
        return Ok(None);
    };
    let Some(path) = path_of(alloc, path)? else {
        return Ok(None);
    };
    let executive = is_executive(&path);
    let Some((name, state)) = cut(rest) else {
        if executive {
            return Ok(None);
        }
        return match net_of(rest, program) {
            Some(model) => Ok(Some(Event::AddNet {
                path,
                model: ModelId(model),
            })),
            None => Ok(None),
        };
    };
    match started_of(alloc, executive, name, state, program)? {
        Some((model, settled)) => {
            let (state, next) = settled;
            Ok(Some(Event::AddLeaf {
                path,
                model: ModelId(model),
                state,
                next,
            }))
        }
        None => Ok(None),
    }
}

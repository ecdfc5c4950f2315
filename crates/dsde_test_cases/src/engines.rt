//! What differs between the two engines of a model: the one whose tree lies in a grove, and the one that
//! walks the whole tree.
//!
//! What is made of a model is not dropped: the program ends soon.

ghost use Rattle.dsde_language.specs.Right.{IsRight};

use crate::left::{by_grove, by_walking};
use dsde_cli_verdict::read_model;
use dsde_lexer::{Places, lex};
use dsde_plain::given::run::Running;
use dsde_program::resolve;
use dsde_syntax::Model;
use dsde_values::Memory;
use std::alloc::Global;
use std::mem;

/// What differs where the model of a text is run on an input by both engines for no turn, for one, and so on
/// up to that many: a line for each number of turns after which the traces differ, or the trees.
pub(crate) fn differences(
    alloc: Global,
    text: &[u8],
    input: &[u8],
    turns: u16,
) -> Result<String, Memory> {
    let read = read_model(alloc, text);
    let lines = match &read {
        Ok(model) => of_model(alloc, model, text, input, turns),
        Err(_) => unaccepted(alloc),
    };
    mem::forget(read);
    lines
}

fn unaccepted(alloc: Global) -> Result<String, Memory> {
    Ok(String::from_str(alloc, "  no model is accepted\n")?)
}

/// The same, of the model of a text.
fn of_model(
    alloc: Global,
    model: &Model,
    text: &[u8],
    input: &[u8],
    turns: u16,
) -> Result<String, Memory>
    requires { IsRight model.now }
{
    let places = places_of(alloc, text)?;
    let program = resolve(alloc, model);
    let lines = match &program {
        Ok(program) => of_program(alloc, &Running::new(program, &places), input, turns),
        Err(Memory) => Err(Memory),
    };
    mem::forget(program);
    lines
}

/// The line and the column of each place of an accepted text, which is cut into tokens, so that the one error
/// is want of memory.
fn places_of(alloc: Global, text: &[u8]) -> Result<Places, Memory> {
    match lex(alloc, text) {
        Ok(tokens) => Places::new(alloc, text, tokens.as_slice()),
        Err(_) => Err(Memory),
    }
}

/// The same, of a program.
fn of_program(
    alloc: Global,
    own: &Running<'_>,
    input: &[u8],
    turns: u16,
) -> Result<String, Memory> {
    let mut lines = String::new(alloc);
    for turns in 0..=turns {
        let wanted = by_walking(alloc, own, input, turns)?;
        let got = by_grove(alloc, own, input, turns)?;
        if wanted.as_str() != got.as_str() {
            writeln!(lines, "  {turns} turns: wanted {wanted}, got {got}")?;
        }
    }
    Ok(lines)
}

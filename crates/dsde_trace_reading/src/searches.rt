//! The first model with which a line is that of an event.

ghost use Rattle.std.specs.Prelude.{◌≡◌, ◌<◌, ◌↔◌, true, length, IfOk};
ghost use Rattle.std.specs.Str.{bytes_eq};
ghost use Rattle.dsde_language.specs.NodeModels.{infos_of};
ghost use Rattle.dsde_trace.specs.Text.{move_text};
ghost use Rattle.dsde_trace_words.specs.Words.{Finds, IsAny, NoneBefore, Pairs, Precedes, Spells};
ghost use Rattle.dsde_trace_reading.specs.Parts.{IsGot, IsNet, IsStarted, IsStateOf, got_text, net_text, state_text};

use crate::models::{count_of, info_of, ins_of, types_of};
use dsde_formalism::MoveKind;
use dsde_language::Info;
use dsde_trace::given::program::Program;
use dsde_trace_words::{cut, move_kind_of, passed_of, settled_of};
use dsde_values::{Memory, Value, Values, When};
use std::alloc::Global;

/// The first model, and the first of its in ports, with which a text is a port and a value: of an
/// executive's, or of an atomic component's.
pub fn got_of(
    alloc: Global,
    executive: bool,
    text: &[u8],
    program: &Program,
) -> Result<Option<(u32, (u32, Value))>, Memory>
    ensures { IfOk result (Finds (Precedes (Precedes NoneBefore)) (Spells (IsGot program.now executive) (got_text program.now) text.now)) }
{
    for model in 0..count_of(program) {
        if let Some(passed) = got_at(alloc, model, executive, text, program)? {
            return Ok(Some((model, passed)));
        }
    }
    Ok(None)
}

/// The port and the value that a text is at the model with this number.
fn got_at(
    alloc: Global,
    number: u32,
    executive: bool,
    text: &[u8],
    program: &Program,
) -> Result<Option<(u32, Value)>, Memory>
    requires { number < length (infos_of program.now) }
    ensures { IfOk result (Finds (Precedes NoneBefore) (λ passed. Spells (IsGot program.now executive) (got_text program.now) text.now (number, passed))) }
{
    let info = info_of(program, number);
    if info.network != executive {
        return Ok(None);
    }
    passed_of(alloc, text, ins_of(info), types_of(program))
}

/// A kind of move, and the first model with which what follows is a state and when it is left.
pub fn moved_of(
    alloc: Global,
    executive: bool,
    text: &[u8],
    program: &Program,
) -> Result<Option<(MoveKind, (u32, (Values, When)))>, Memory>
    ensures { IfOk result (Pairs IsAny move_text (Precedes NoneBefore) (λ _. IsStateOf program.now executive) (λ _. state_text program.now) text.now) }
{
    let Some((kind, rest)) = cut(text) else {
        return Ok(None);
    };
    let Some(kind) = move_kind_of(kind) else {
        return Ok(None);
    };
    match state_of(alloc, executive, rest, program)? {
        Some(found) => Ok(Some((kind, found))),
        None => Ok(None),
    }
}

/// The first model with which a text is a state and when it is left.
fn state_of(
    alloc: Global,
    executive: bool,
    text: &[u8],
    program: &Program,
) -> Result<Option<(u32, (Values, When))>, Memory>
    ensures { IfOk result (Finds (Precedes NoneBefore) (Spells (IsStateOf program.now executive) (state_text program.now) text.now)) }
{
    for number in 0..count_of(program) {
        if let Some(settled) = state_at(alloc, number, executive, text, program)? {
            return Ok(Some((number, settled)));
        }
    }
    Ok(None)
}

/// The state that a text is at the model with this number, and when it is left.
fn state_at(
    alloc: Global,
    number: u32,
    executive: bool,
    text: &[u8],
    program: &Program,
) -> Result<Option<(Values, When)>, Memory>
    requires { number < length (infos_of program.now) }
    ensures { IfOk result (Finds NoneBefore (λ settled. Spells (IsStateOf program.now executive) (state_text program.now) text.now (number, settled))) }
{
    let info = info_of(program, number);
    if info.network != executive {
        return Ok(None);
    }
    settled_of(alloc, text, info.states.as_slice(), types_of(program))
}

/// The first model with this name with which a text is a state and when it is left.
pub fn started_of(
    alloc: Global,
    executive: bool,
    name: &[u8],
    text: &[u8],
    program: &Program,
) -> Result<Option<(u32, (Values, When))>, Memory>
    ensures { IfOk result (Finds (Precedes NoneBefore) (Spells (IsStarted program.now executive name.now) (state_text program.now) text.now)) }
{
    for number in 0..count_of(program) {
        if let Some(settled) = started_at(alloc, number, executive, name, text, program)? {
            return Ok(Some((number, settled)));
        }
    }
    Ok(None)
}

/// The state that a text is at the model with this number, if that has this name.
fn started_at(
    alloc: Global,
    number: u32,
    executive: bool,
    name: &[u8],
    text: &[u8],
    program: &Program,
) -> Result<Option<(Values, When)>, Memory>
    requires { number < length (infos_of program.now) }
    ensures { IfOk result (Finds NoneBefore (λ settled. Spells (IsStarted program.now executive name.now) (state_text program.now) text.now (number, settled))) }
{
    if is_named(name, info_of(program, number)) {
        return state_at(alloc, number, executive, text, program);
    }
    Ok(None)
}

/// The first network with this name.
pub fn net_of(name: &[u8], program: &Program) -> Option<u32>
    ensures { Finds ◌<◌ (Spells (IsNet program.now) (net_text program.now) name.now) result }
{
    for number in 0..count_of(program) {
        if is_net(name, number, program) {
            return Some(number);
        }
    }
    None
}

/// Whether the model with this number is a network with this name.
fn is_net(name: &[u8], number: u32, program: &Program) -> bool
    requires { number < length (infos_of program.now) }
    ensures { (result ≡ true) ↔ Spells (IsNet program.now) (net_text program.now) name.now number }
{
    let info = info_of(program, number);
    if info.network {
        return is_named(name, info);
    }
    false
}

/// Whether a model has this name.
fn is_named(name: &[u8], info: &Info) -> bool
    ensures { result ≡ bytes_eq name.now info.now.name }
{
    name == info.name.as_slice()
}

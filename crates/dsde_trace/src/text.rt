//! The lines of a trace.

ghost use Rattle.std.specs.Prelude.{◌≡◌, ◌++◌, length, map, take, codes, decimal, option_copied, OnOk, OnErr};
ghost use Rattle.dsde_values.specs.Path.{path_text};
ghost use Rattle.dsde_values.specs.Value.{spelling, joined, field_texts};
ghost use Rattle.dsde_sim_tree.specs.declared.event.Event.TheVariants as event;
ghost use Rattle.dsde_language.specs.DeclaredModels.{own_at, top_outs};
ghost use Rattle.dsde_program.specs.given.program_layout.Declared.{Declares};
ghost use Rattle.dsde_trace.specs.Text.{event_text, end_text, finish_text, fault_text, settled_text, passed_text, port_text, move_text, input_text, site_text, kind_text, model_text, states_at, ins_at};

use dsde_faults::{FaultKind, Site};
use dsde_language::{Info, ModelId};
use dsde_lists::append_decimal;
use dsde_program::Program;
use dsde_program::given::program_layout::infos_are_declared;
use dsde_sim_tree::given::formalism::MoveKind;
use dsde_sim_tree::{Event, Fault, Finish, InputKind};
use dsde_values::{
    Field, Memory, Path, Text, Types, Value, When, write_fields, write_path, write_value,
};

/// Appends the line of an event of a run of the program, and a line feed. Without memory the text
/// stays as it was.
pub fn write_event(event: &Event, program: &Program, text: &mut Text) -> Result<(), Memory>
    ensures ok { OnOk result (text.new ≡ text.old ++ event_text program.now event.now) }
    ensures err { OnErr result (text.new ≡ text.old) }
{
    let start = text.len();
    let written = append_event(event, program, text);
    text.whole_or_none(start, written)
}

/// Appends the last line of a trace, which says how the run ended, after how many turns and at
/// which time. Without memory the text stays as it was.
pub fn write_end(how: &Finish, turns: u64, time: u64, text: &mut Text) -> Result<(), Memory>
    ensures ok { OnOk result (text.new ≡ text.old ++ end_text how.now turns time) }
    ensures err { OnErr result (text.new ≡ text.old) }
{
    let start = text.len();
    let written = append_end(how, turns, time, text);
    text.whole_or_none(start, written)
}

/// Appends a fault's path, site, kind and place. Without memory the text stays as it was.
pub fn write_fault(fault: &Fault, text: &mut Text) -> Result<(), Memory>
    ensures ok { OnOk result (text.new ≡ text.old ++ fault_text fault.now) }
    ensures err { OnErr result (text.new ≡ text.old) }
{
    let start = text.len();
    let written = append_fault(fault, text);
    text.whole_or_none(start, written)
}

// The functions below leave some part of what they append, from its front, where memory runs out.

fn append_event(event: &Event, program: &Program, text: &mut Text) -> Result<(), Memory>
    ensures ok { OnOk result (text.new ≡ text.old ++ event_text program.now event.now) }
    ensures grows { take (length text.old) text.new ≡ text.old }
{
    match event {
        Event::AddNet { path, model } => append_net(path, *model, program, text),
        Event::AddLeaf {
            path,
            model,
            state,
            next,
        } => append_leaf(path, *model, state.as_slice(), *next, program, text),
        Event::Turn { number, time } => append_turn(*number, *time, text),
        Event::Out { port, value } => append_out(*port, value, program, text),
        Event::Get {
            path,
            model,
            port,
            value,
        } => append_get(path, *model, *port, value, program, text),
        Event::Move {
            path,
            model,
            kind,
            state,
            next,
        } => append_move(path, *model, *kind, state.as_slice(), *next, program, text),
        Event::Drop { path, count } => append_drop(path, *count, text),
        Event::Finish { how, turns, time } => append_end(how, *turns, *time, text),
    }
}

fn append_net(path: &Path, model: ModelId, program: &Program, text: &mut Text) -> Result<(), Memory>
    ensures ok { OnOk result (text.new ≡ text.old ++ event_text program.now (event.AddNet path.now model)) }
    ensures grows { take (length text.old) text.new ≡ text.old }
{
    append_head(b"add ", path, text)?;
    text.extend_from_slice(name_of(program, model))?;
    text.push(b'\n')
}

fn append_leaf(
    path: &Path,
    model: ModelId,
    state: &[Value],
    next: When,
    program: &Program,
    text: &mut Text,
) -> Result<(), Memory>
    ensures ok { OnOk result (text.new ≡ text.old ++ event_text program.now (event.AddLeaf path.now model state.now next)) }
    ensures grows { take (length text.old) text.new ≡ text.old }
{
    append_head(b"add ", path, text)?;
    text.extend_from_slice(name_of(program, model))?;
    append_settled(
        states_of(program, model),
        state,
        program.types(),
        next,
        text,
    )
}

fn append_out(port: u32, value: &Value, program: &Program, text: &mut Text) -> Result<(), Memory>
    ensures ok { OnOk result (text.new ≡ text.old ++ event_text program.now (event.Out port value.now)) }
    ensures grows { take (length text.old) text.new ≡ text.old }
{
    text.extend_from_slice(b"out root ")?;
    append_passed(top_outs(program), port, value, program.types(), text)
}

fn append_get(
    path: &Path,
    model: ModelId,
    port: u32,
    value: &Value,
    program: &Program,
    text: &mut Text,
) -> Result<(), Memory>
    ensures ok { OnOk result (text.new ≡ text.old ++ event_text program.now (event.Get path.now model port value.now)) }
    ensures grows { take (length text.old) text.new ≡ text.old }
{
    append_head(b"get ", path, text)?;
    append_passed(ins_of(program, model), port, value, program.types(), text)
}

fn append_move(
    path: &Path,
    model: ModelId,
    kind: MoveKind,
    state: &[Value],
    next: When,
    program: &Program,
    text: &mut Text,
) -> Result<(), Memory>
    ensures ok { OnOk result (text.new ≡ text.old ++ event_text program.now (event.Move path.now model kind state.now next)) }
    ensures grows { take (length text.old) text.new ≡ text.old }
{
    append_head(b"move ", path, text)?;
    text.extend_from_slice(move_text(kind).as_bytes())?;
    append_settled(
        states_of(program, model),
        state,
        program.types(),
        next,
        text,
    )
}

fn append_drop(path: &Path, count: u64, text: &mut Text) -> Result<(), Memory>
    ensures ok { OnOk result (text.new ≡ text.old ++ codes "drop " ++ path_text path.now ++ codes " " ++ decimal count ++ codes "\n") }
    ensures grows { take (length text.old) text.new ≡ text.old }
{
    append_head(b"drop ", path, text)?;
    append_decimal(count, text)?;
    text.push(b'\n')
}

/// The front of a line: a word and a path.
fn append_head(word: &[u8], path: &Path, text: &mut Text) -> Result<(), Memory>
    ensures ok { OnOk result (text.new ≡ text.old ++ word.now ++ path_text path.now ++ codes " ") }
    ensures grows { take (length text.old) text.new ≡ text.old }
{
    text.extend_from_slice(word)?;
    write_path(path, text)?;
    text.push(b' ')
}

/// What the model with a number declares, if the program has it.
fn info_of<'p>(program: &'p Program, model: ModelId) -> Option<&'p Info>
    ensures { Declares program.now (own_at program.now model) (option_copied result) }
{
    // A law: what is told of a model is what its declaration says.
    infos_are_declared();
    if model.0 < program.models() {
        return Some(program.info(model));
    }
    None
}

/// The name of the model with a number.
fn name_of<'p>(program: &'p Program, model: ModelId) -> &'p [u8]
    ensures { result.now ≡ model_text program.now model }
{
    match info_of(program, model) {
        Some(info) => info.name.as_slice(),
        None => b"",
    }
}

/// The state variables of the atomic model with a number, or of the network's executive.
fn states_of<'p>(program: &'p Program, model: ModelId) -> &'p [Field]
    ensures { result.now ≡ states_at program.now model }
{
    match info_of(program, model) {
        Some(info) => info.states.as_slice(),
        None => &[],
    }
}

/// The in ports of the atomic model with a number, or of the network's executive.
fn ins_of<'p>(program: &'p Program, model: ModelId) -> &'p [Field]
    ensures { result.now ≡ ins_at program.now model }
{
    match info_of(program, model) {
        Some(info) if info.network => info.boss_ins.as_slice(),
        Some(info) => info.ins.as_slice(),
        None => &[],
    }
}

/// The out ports of the model that runs.
fn top_outs<'p>(program: &'p Program) -> &'p [Field]
    ensures { result.now ≡ top_outs program.now }
{
    match info_of(program, program.top_model()) {
        Some(info) => info.outs.as_slice(),
        None => &[],
    }
}

fn append_turn(number: u64, time: u64, text: &mut Text) -> Result<(), Memory>
    ensures ok { OnOk result (text.new ≡ text.old ++ codes "turn " ++ decimal number ++ codes " at " ++ decimal time ++ codes "\n") }
    ensures grows { take (length text.old) text.new ≡ text.old }
{
    text.extend_from_slice(b"turn ")?;
    append_decimal(number, text)?;
    text.extend_from_slice(b" at ")?;
    append_decimal(time, text)?;
    text.push(b'\n')
}

/// The name of the port with a number.
fn port_text(ports: &[Field], port: u32) -> &[u8]
    ensures { result.now ≡ port_text ports.now port }
{
    match ports.get(port as usize) {
        Some(field) => field.name.as_slice(),
        None => b"",
    }
}

/// The end of a line: a port and a value at it.
#[tactic(auto, unfolding(crate::specs::Text::passed_text))]
fn append_passed(
    ports: &[Field],
    port: u32,
    value: &Value,
    types: &Types,
    text: &mut Text,
) -> Result<(), Memory>
    ensures ok { OnOk result (text.new ≡ text.old ++ passed_text ports.now types.now port value.now) }
    ensures grows { take (length text.old) text.new ≡ text.old }
{
    text.extend_from_slice(port_text(ports, port))?;
    text.push(b' ')?;
    append_value(value, types, text)?;
    text.push(b'\n')
}

/// A value as it is spelled.
fn append_value(value: &Value, types: &Types, text: &mut Text) -> Result<(), Memory>
    ensures ok { OnOk result (text.new ≡ text.old ++ spelling types.now value.now) }
    ensures grows { take (length text.old) text.new ≡ text.old }
{
    write_value(value, types, text)
}

/// The end of a line: a state, and when it is left.
#[tactic(auto, unfolding(crate::specs::Text::settled_text))]
fn append_settled(
    states: &[Field],
    state: &[Value],
    types: &Types,
    next: When,
    text: &mut Text,
) -> Result<(), Memory>
    ensures ok { OnOk result (text.new ≡ text.old ++ settled_text states.now types.now state.now next) }
    ensures grows { take (length text.old) text.new ≡ text.old }
{
    text.extend_from_slice(b" {")?;
    append_bindings(states, state, types, text)?;
    text.extend_from_slice(b"} next ")?;
    match next {
        When::At(time) => append_decimal(time, text)?,
        When::Never => text.extend_from_slice(b"never")?,
    }
    text.push(b'\n')
}

/// State variables and their values, as many as there are of both.
fn append_bindings(
    states: &[Field],
    state: &[Value],
    types: &Types,
    text: &mut Text,
) -> Result<(), Memory>
    ensures ok { OnOk result (text.new ≡ text.old ++ joined (field_texts states.now (map (spelling types.now) state.now))) }
    ensures grows { take (length text.old) text.new ≡ text.old }
{
    write_fields(states, state, types, text)
}

fn append_end(how: &Finish, turns: u64, time: u64, text: &mut Text) -> Result<(), Memory>
    ensures ok { OnOk result (text.new ≡ text.old ++ end_text how.now turns time) }
    ensures grows { take (length text.old) text.new ≡ text.old }
{
    text.extend_from_slice(b"end ")?;
    append_how(how, text)?;
    text.extend_from_slice(b" turns ")?;
    append_decimal(turns, text)?;
    text.extend_from_slice(b" at ")?;
    append_decimal(time, text)?;
    text.push(b'\n')
}

fn append_how(how: &Finish, text: &mut Text) -> Result<(), Memory>
    ensures ok { OnOk result (text.new ≡ text.old ++ finish_text how.now) }
    ensures grows { take (length text.old) text.new ≡ text.old }
{
    match how {
        Finish::Bound => text.extend_from_slice(b"bound"),
        Finish::Quiet => text.extend_from_slice(b"quiet"),
        Finish::Input { kind, line } => {
            text.extend_from_slice(b"input ")?;
            text.extend_from_slice(input_text(*kind).as_bytes())?;
            text.push(b' ')?;
            append_decimal(*line, text)
        }
        Finish::Fault(fault) => {
            text.extend_from_slice(b"fault ")?;
            append_fault(fault, text)
        }
    }
}

fn append_fault(fault: &Fault, text: &mut Text) -> Result<(), Memory>
    ensures ok { OnOk result (text.new ≡ text.old ++ fault_text fault.now) }
    ensures grows { take (length text.old) text.new ≡ text.old }
{
    write_path(&fault.path, text)?;
    text.push(b' ')?;
    text.extend_from_slice(site_text(fault.site).as_bytes())?;
    text.push(b' ')?;
    text.extend_from_slice(kind_text(fault.kind).as_bytes())?;
    text.push(b' ')?;
    append_decimal(u64::from(fault.line), text)?;
    text.push(b':')?;
    append_decimal(u64::from(fault.column), text)
}

fn move_text(kind: MoveKind) -> &'static str
    ensures { result.now ≡ move_text kind }
{
    match kind {
        MoveKind::Internal => "internal",
        MoveKind::External => "external",
        MoveKind::Confluent => "confluent",
    }
}

/// The word for a bad line, as traces and notes have it.
pub fn input_text(kind: InputKind) -> &'static str
    ensures { result.now ≡ input_text kind }
{
    match kind {
        InputKind::BadLine => "BadLine",
        InputKind::Backwards => "Backwards",
        InputKind::LineTooLong => "LineTooLong",
    }
}

fn site_text(site: Site) -> &'static str
    ensures { result.now ≡ site_text site }
{
    match site {
        Site::Top => "top",
        Site::Start => "start",
        Site::Init => "init",
        Site::Advance => "advance",
        Site::Output => "output",
        Site::Internal => "internal",
        Site::External => "external",
        Site::Confluent => "confluent",
        Site::Structure => "structure",
    }
}

fn kind_text(kind: FaultKind) -> &'static str
    ensures { result.now ≡ kind_text kind }
{
    match kind {
        FaultKind::Overflow => "Overflow",
        FaultKind::DivideByZero => "DivideByZero",
        FaultKind::IndexOutOfRange => "IndexOutOfRange",
        FaultKind::EmptyOption => "EmptyOption",
        FaultKind::RangeTooLong => "RangeTooLong",
        FaultKind::NegativeAdvance => "NegativeAdvance",
        FaultKind::TimeTooFar => "TimeTooFar",
        FaultKind::DuplicateComponent => "DuplicateComponent",
        FaultKind::BadIndex => "BadIndex",
        FaultKind::DanglingLink => "DanglingLink",
        FaultKind::TooManyLinks => "TooManyLinks",
        FaultKind::TooDeep => "TooDeep",
        FaultKind::Crowded => "Crowded",
    }
}

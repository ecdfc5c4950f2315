//! The line on standard error for a status.

ghost use Rattle.std.specs.Prelude.{◌≡◌, ◌≢◌, ◌≤◌, ◌++◌, ◌⊎◌, length, take, codes, decimal, OnOk, OnErr, IfSome};
ghost use Rattle.dsde_io.specs.Fault.{Rose};
ghost use Rattle.dsde_trace.specs.Text.{fault_text, input_text};
ghost use Rattle.dsde_cli_status.specs.Note.{Noted, WritesNoteFront, note_of, refusal_text, save_text, usage_text, what_text, why_text, wrong_text};

use crate::{SaveFault, Status, What, Why};
use dsde_cli_verdict::Refusal;
use dsde_io::{Sink, SinkEnd, write_all};
use dsde_language::WrongKind;
use dsde_lists::append_decimal;
use dsde_sim_tree::{Fault, InputKind};
use dsde_trace::{input_text, write_fault};
use dsde_values::{Memory, Text, write_path};
use std::alloc::Global;

const USAGE: &str =
    "usage: dsde check MODEL [--print] | run MODEL --turns N [--only outputs|structure] [--save FILE] | resume MODEL FILE --turns N [--only outputs|structure] [--save FILE] | big SEED --turns N | free MODEL --turns N --order SEED";

/// Writes the note of a status, if it has one, and answers the status. A write that failed changes
/// nothing; where memory ran out, that is the status, and its note needs none.
pub fn report<E: Sink>(alloc: Global, status: Status, notes: &mut E) -> Status
    ensures same { (result ≡ status) ⊎ (result ≡ Status.Memory) }
    ensures done { status ≡ Status.Done → result ≡ Status.Done }
    ensures noted { result ≢ Status.Memory
        → Noted (Rose (E.faults notes.old) (E.faults notes.new)) (E.written notes.old) (E.written notes.new) result }
    ensures noted_front { IfSome (E.written notes.old) (λ written. WritesNoteFront written (E.written notes.new)) }
    ensures counted { E.faults notes.old ≤ E.faults notes.new }
{
    match status {
        Status::Done => Status::Done,
        other => report_line(alloc, other, notes),
    }
}

/// Writes the line of a status, and answers the status, or that memory ran out.
fn report_line<E: Sink>(alloc: Global, status: Status, notes: &mut E) -> Status
    ensures same { (result ≡ status) ⊎ (result ≡ Status.Memory) }
    ensures noted { result ≢ Status.Memory
        → Noted (Rose (E.faults notes.old) (E.faults notes.new)) (E.written notes.old) (E.written notes.new) result }
    ensures noted_front { IfSome (E.written notes.old) (λ written. WritesNoteFront written (E.written notes.new)) }
    ensures counted { E.faults notes.old ≤ E.faults notes.new }
{
    let mut text = Text::new(alloc);
    if write_note(&status, &mut text).is_err() {
        let _ = write_all(notes, b"memory\n");
        return Status::Memory;
    }
    match write_all(notes, text.as_slice()) {
        Err(SinkEnd::Memory) => Status::Memory,
        Ok(()) | Err(SinkEnd::Failed) => status,
    }
}

/// Appends the one line that standard error gets for a status, which is none for `Done`.
/// Without memory the text stays as it was.
fn write_note(status: &Status, text: &mut Text) -> Result<(), Memory>
    ensures ok { OnOk result (text.new ≡ text.old ++ note_of status.now) }
    ensures err { OnErr result (text.new ≡ text.old) }
{
    let start = text.len();
    let written = append_note(status, text);
    text.whole_or_none(start, written)
}

// The functions below leave some part of what they append, from its front, where memory runs out.

fn append_note(status: &Status, text: &mut Text) -> Result<(), Memory>
    ensures ok { OnOk result (text.new ≡ text.old ++ note_of status.now) }
    ensures grows { take (length text.old) text.new ≡ text.old }
{
    match status {
        Status::Done => return Ok(()),
        Status::Refused { kind, line, column } => append_refusal(*kind, *line, *column, text)?,
        Status::Usage => append_usage(text)?,
        Status::BadInput { kind, line } => append_bad_input(*kind, *line, text)?,
        Status::ModelFault(fault) => append_model_fault(fault, text)?,
        Status::Unread { what, why } => append_unread(*what, *why, text)?,
        Status::Unwritten(what) => append_unwritten(*what, text)?,
        Status::Memory => text.extend_from_slice(b"memory")?,
        Status::BadSave(fault) => append_bad_save(fault, text)?,
    }
    text.push(b'\n')
}

fn append_usage(text: &mut Text) -> Result<(), Memory>
    ensures ok { OnOk result (text.new ≡ text.old ++ usage_text) }
    ensures err { OnErr result (text.new ≡ text.old) }
{
    text.extend_from_slice(USAGE.as_bytes())
}

fn append_refusal(kind: Refusal, line: u32, column: u32, text: &mut Text) -> Result<(), Memory>
    ensures ok { OnOk result (text.new ≡ text.old ++ codes "refused " ++ refusal_text kind ++ codes " " ++ decimal line ++ codes ":" ++ decimal column) }
    ensures grows { take (length text.old) text.new ≡ text.old }
{
    text.extend_from_slice(b"refused ")?;
    text.extend_from_slice(refusal_text(kind).as_bytes())?;
    text.push(b' ')?;
    append_decimal(u64::from(line), text)?;
    text.push(b':')?;
    append_decimal(u64::from(column), text)
}

fn append_bad_input(kind: InputKind, line: u64, text: &mut Text) -> Result<(), Memory>
    ensures ok { OnOk result (text.new ≡ text.old ++ codes "input " ++ input_text kind ++ codes " " ++ decimal line) }
    ensures grows { take (length text.old) text.new ≡ text.old }
{
    text.extend_from_slice(b"input ")?;
    text.extend_from_slice(input_text(kind).as_bytes())?;
    text.push(b' ')?;
    append_decimal(line, text)
}

fn append_model_fault(fault: &Fault, text: &mut Text) -> Result<(), Memory>
    ensures ok { OnOk result (text.new ≡ text.old ++ codes "fault " ++ fault_text fault.now) }
    ensures grows { take (length text.old) text.new ≡ text.old }
{
    text.extend_from_slice(b"fault ")?;
    write_fault(fault, text)
}

fn append_unread(what: What, why: Why, text: &mut Text) -> Result<(), Memory>
    ensures ok { OnOk result (text.new ≡ text.old ++ codes "unread " ++ what_text what ++ codes " " ++ why_text why) }
    ensures grows { take (length text.old) text.new ≡ text.old }
{
    text.extend_from_slice(b"unread ")?;
    text.extend_from_slice(what_text(what).as_bytes())?;
    text.push(b' ')?;
    text.extend_from_slice(why_text(why).as_bytes())
}

fn append_unwritten(what: What, text: &mut Text) -> Result<(), Memory>
    ensures ok { OnOk result (text.new ≡ text.old ++ codes "unwritten " ++ what_text what) }
    ensures grows { take (length text.old) text.new ≡ text.old }
{
    text.extend_from_slice(b"unwritten ")?;
    text.extend_from_slice(what_text(what).as_bytes())
}

fn append_bad_save(fault: &SaveFault, text: &mut Text) -> Result<(), Memory>
    ensures ok { OnOk result (text.new ≡ text.old ++ codes "save " ++ save_text fault.now) }
    ensures grows { take (length text.old) text.new ≡ text.old }
{
    text.extend_from_slice(b"save ")?;
    match fault {
        SaveFault::NotJson => text.extend_from_slice(b"NotJson"),
        SaveFault::WrongForm => text.extend_from_slice(b"WrongForm"),
        SaveFault::DoesNotFit(path) => {
            text.extend_from_slice(b"DoesNotFit ")?;
            write_path(path, text)
        }
        SaveFault::FewRecords => text.extend_from_slice(b"FewRecords"),
    }
}

fn refusal_text(kind: Refusal) -> &'static str
    ensures { result.now ≡ refusal_text kind }
{
    match kind {
        Refusal::BadByte => "BadByte",
        Refusal::BadNumber => "BadNumber",
        Refusal::Syntax => "Syntax",
        Refusal::Nested => "Nested",
        Refusal::Check(kind) => wrong_text(kind),
    }
}

fn wrong_text(kind: WrongKind) -> &'static str
    ensures { result.now ≡ wrong_text kind }
{
    match kind {
        WrongKind::Duplicate => "Duplicate",
        WrongKind::Unknown => "Unknown",
        WrongKind::WrongType => "WrongType",
        WrongKind::NotTotal => "NotTotal",
        WrongKind::BadLink => "BadLink",
        WrongKind::NoExternal => "NoExternal",
        WrongKind::MixedFamily => "MixedFamily",
        WrongKind::NoTop => "NoTop",
        WrongKind::Limit => "Limit",
    }
}

fn what_text(what: What) -> &'static str
    ensures { result.now ≡ what_text what }
{
    match what {
        What::Model => "model",
        What::Save => "save",
        What::Input => "input",
        What::Output => "output",
    }
}

fn why_text(why: Why) -> &'static str
    ensures { result.now ≡ why_text why }
{
    match why {
        Why::Absent => "absent",
        Why::TooLong => "long",
        Why::Failed => "failed",
    }
}

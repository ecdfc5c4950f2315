//! What is noted of statuses by themselves.

use anyhow::{Result, anyhow};
use dsde_cli::{Refusal, SaveFault, Status, What, report};
use dsde_io::{MemorySink, Sink};
use dsde_language::WrongKind;
use dsde_values::{Path, Seq, Text};
use std::str;

/// Writes a line for each of some statuses: its number, and what `report` notes of it. The last is
/// one whose note is not written, which changes no status.
pub(crate) fn show_statuses(rt: &(impl Print + AllocGlobal)) -> Result<()> {
    let path = Path::root(rt.alloc()).map_err(|_memory| anyhow!("memory ran out"))?;
    show(
        rt,
        Status::Refused {
            kind: Refusal::Check(WrongKind::NoTop),
            line: 1,
            column: 262,
        },
    )?;
    show(rt, Status::Unwritten(What::Save))?;
    show(rt, Status::Memory)?;
    show(rt, Status::BadSave(SaveFault::NotJson))?;
    show(rt, Status::BadSave(SaveFault::DoesNotFit(path)))?;
    show_unwritten(rt, Status::BadSave(SaveFault::FewRecords))
}

fn show(rt: &(impl Print + AllocGlobal), status: Status) -> Result<()> {
    let alloc = rt.alloc();
    let mut notes = MemorySink::new(Text::new(alloc), Seq::new(alloc));
    let number = report(alloc, status, &mut notes).number();
    let note = str::from_utf8(notes.contents()).unwrap_or("a note that is no text");
    print!(rt; "status {number}: {note}")?;
    Ok(())
}

/// The first write of the note fails.
fn show_unwritten(rt: &(impl Print + AllocGlobal), status: Status) -> Result<()> {
    let alloc = rt.alloc();
    let failing = Seq::from_vec(vec![in alloc; 1]?);
    let mut notes = MemorySink::new(Text::new(alloc), failing);
    let number = report(alloc, status, &mut notes).number();
    let count = notes.contents().len();
    println!(rt; "status {number}: {count} bytes of its note, whose write fails")?;
    Ok(())
}

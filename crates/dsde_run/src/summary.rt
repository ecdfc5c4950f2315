//! The summary of a run.

ghost use Rattle.std.specs.Prelude.{◌≡◌, ◌≤◌, ◌++◌, length, take, Some, IfOk, OnOk};
ghost use Rattle.dsde_input_records.specs.Records.{end};
ghost use Rattle.dsde_trace.specs.Text.{end_text};
ghost use Rattle.dsde_run.specs.Run.{run};
ghost use Rattle.dsde_run.specs.Counting.{IsOwnEnd, count_line, counts_text, summary_text};

use crate::Running;
use crate::count::{Counted, count_run};
use dsde_sim_tree::Finish;
use dsde_trace::write_end;
use dsde_values::{Memory, Text};
use itoa::Buffer;
use std::alloc::Global;

/// The summary of a run, and how it ended.
#[derive(Drop)]
pub struct Summarized {
    pub text: Text,
    pub how: Finish,
}

/// Runs a program without input, from its start for at most this many turns. Its summary is the lines
/// `turns`, `adds`, `drops`, `gets`, `moves` and `outs`, each with the number of such lines in its
/// trace, and the last line of its trace. `Memory` comes where memory ran out.
pub fn summarize(alloc: Global, own: &Running<'_>, turns: u64) -> Result<Summarized, Memory>
    requires { turns ≤ 1_000_000_000 }
    ensures text { IfOk result (λ told. told.text ≡ summary_text own.now (run own.now end turns)) }
    ensures how { IfOk result (λ told. (run own.now end turns).end ≡ Some told.how) }
    ensures own_end { IfOk result (λ told. IsOwnEnd told.how) }
{
    let counted = count_run(alloc, own, turns)?;
    let mut text = Text::new(alloc);
    append_summary(&counted, &mut text)?;
    Ok(Summarized {
        text,
        how: counted.how,
    })
}

/// Appends the counts of a run, and its last line. Without memory the text has some of it, from its
/// front.
fn append_summary(counted: &Counted, text: &mut Text) -> Result<(), Memory>
    ensures { OnOk result (text.new ≡ text.old ++ counts_text counted.now.summary ++ end_text counted.now.how counted.now.turns counted.now.time) }
{
    append_count(b"turns ", counted.summary.turns, text)?;
    append_count(b"adds ", counted.summary.adds, text)?;
    append_count(b"drops ", counted.summary.drops, text)?;
    append_count(b"gets ", counted.summary.gets, text)?;
    append_count(b"moves ", counted.summary.moves, text)?;
    append_count(b"outs ", counted.summary.outs, text)?;
    write_end(&counted.how, counted.turns, counted.time, text)
}

/// Appends a line of the summary.
fn append_count(word: &[u8], count: u128, text: &mut Text) -> Result<(), Memory>
    ensures { OnOk result (text.new ≡ text.old ++ count_line word.now count) }
{
    text.extend_from_slice(word)?;
    text.extend_from_slice(Buffer::new().format(count).as_bytes())?;
    text.push(b'\n')
}

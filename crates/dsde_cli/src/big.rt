//! The command `big`: it runs the large model of a seed without input, and writes the summary of its
//! run.

ghost use Rattle.std.specs.Prelude.{◌≡◌, ◌≤◌, ℕ, [], Some, IfOk, IfErr, IfSome};
ghost use Rattle.dsde_io.specs.Fault.{Rose};
ghost use Rattle.dsde_language.specs.Right.{IsRight};
ghost use Rattle.dsde_run_free.specs.given.run.Run.{Running, run};
ghost use Rattle.dsde_run_big.specs.Model.{big_text};
ghost use Rattle.dsde_run_free.specs.given.run.Counting.{IsOwnEnd, summary_text};
ghost use Rattle.dsde_cli.specs.Big.{CauseBig, Summarizes, IsOfSummary, big_run};
ghost use Rattle.dsde_cli.specs.Causes.{IsBeforeRun, NoneIn, Runs, Tells};
ghost use Rattle.dsde_cli.specs.Loaded.{own_of};
ghost use Rattle.dsde_cli.specs.Outcome.{Completes};
ghost use Rattle.dsde_cli.specs.RunOutcome.{SaysEnd};
ghost use Rattle.dsde_cli_status.specs.given.cli_verdict.refusal_Refusal.{Refusal};
ghost use Rattle.dsde_cli_status.specs.given.cli_verdict.Verdict.{Refuses};

use crate::load::{Runnable, read_runnable};
use crate::status_by;
use dsde_cli_status::given::cli_verdict::one_verdict;
use dsde_cli_status::given::program::resolve;
use dsde_cli_status::{Status, What};
use dsde_io::{Sink, SinkEnd, write_all};
use dsde_run_big::large_models_are_short;
use dsde_run_free::given::run::{Running, Summarized, big_model, summarize};
use dsde_sound_runs::{inputs_arrive, runs_end};
use std::alloc::Global;

/// Runs the large model of a seed for at most so many turns on an empty input, and writes the summary
/// of its run: six counts, and the last line of its trace.
pub(crate) fn run_big<W: Sink>(alloc: Global, seed: u32, turns: u64, out: &mut W) -> Status
    requires { turns ≤ 1_000_000_000 }
    ensures summarizes { (own : Running) → Runs (big_text seed) own
        → IfSome (W.written out.old) (λ written. Summarizes (summary_text own (big_run own turns)) written (W.written out.new) result) }
    ensures ends { (own : Running) → Runs (big_text seed) own → SaysEnd (big_run own turns).end (Some []) result }
    ensures complete { (own : Running) → Runs (big_text seed) own → ¬ (Rose (W.faults out.old) (W.faults out.new))
        → Completes own (λ records. run own records turns) (Some []) result }
    ensures cause { CauseBig seed (Rose (W.faults out.old) (W.faults out.new)) result }
    ensures refused { (kind : Refusal) → (line column : ℕ) → Refuses (big_text seed) kind line column → Tells kind line column result }
    ensures untouched { IsBeforeRun result → out.new ≡ out.old }
    ensures out_counted { W.faults out.old ≤ W.faults out.new }
{
    // Laws: a text has one verdict, that of the large model is short, and the runs of an accepted
    // model end.
    one_verdict();
    large_models_are_short();
    runs_end();
    inputs_arrive();
    match load_big(alloc, seed) {
        Ok(loaded) => run_loaded(alloc, &loaded, turns, out),
        Err(status) => status,
    }
}

/// The large model of a seed with its places, or the status of a call that has none.
fn load_big(alloc: Global, seed: u32) -> Result<Runnable, Status>
    ensures right { IfOk result (λ loaded. IsRight loaded.model) }
    ensures runs { IfOk result (λ loaded. Runs (big_text seed) (own_of loaded)) }
    ensures only { IfOk result (λ loaded. (other : Running) → Runs (big_text seed) other → other ≡ own_of loaded) }
    ensures none { IfErr result (NoneIn Refuses (big_text seed)) }
{
    match big_model(alloc, seed) {
        Ok(text) => read_runnable(alloc, text.as_slice()),
        Err(_) => Err(Status::Memory),
    }
}

/// Runs a model that was loaded, and writes the summary of its run.
fn run_loaded<W: Sink>(alloc: Global, loaded: &Runnable, turns: u64, out: &mut W) -> Status
    requires right { IsRight loaded.now.model }
    requires turns { turns ≤ 1_000_000_000 }
    ensures summarizes { IfSome (W.written out.old) (λ written.
        Summarizes (summary_text (own_of loaded.now) (big_run (own_of loaded.now) turns)) written (W.written out.new) result) }
    ensures ends { SaysEnd (big_run (own_of loaded.now) turns).end (Some []) result }
    ensures cause { IsOfSummary (Rose (W.faults out.old) (W.faults out.new)) result }
    ensures out_counted { W.faults out.old ≤ W.faults out.new }
{
    match resolve(alloc, &loaded.model) {
        Ok(program) => write_summary(alloc, &Running::new(&program, &loaded.places), turns, out),
        Err(_) => Status::Memory,
    }
}

/// Runs a program, and writes the summary of its run.
fn write_summary<W: Sink>(alloc: Global, own: &Running<'_>, turns: u64, out: &mut W) -> Status
    requires turns { turns ≤ 1_000_000_000 }
    ensures summarizes { IfSome (W.written out.old) (λ written.
        Summarizes (summary_text own.now (big_run own.now turns)) written (W.written out.new) result) }
    ensures ends { SaysEnd (big_run own.now turns).end (Some []) result }
    ensures cause { IsOfSummary (Rose (W.faults out.old) (W.faults out.new)) result }
    ensures out_counted { W.faults out.old ≤ W.faults out.new }
{
    match summarize(alloc, own, turns) {
        Ok(told) => write_told(told, out),
        Err(_) => Status::Memory,
    }
}

/// Writes a summary, and says how its run ended.
fn write_told<W: Sink>(told: Summarized, out: &mut W) -> Status
    requires { IsOwnEnd told.how }
    ensures summarizes { IfSome (W.written out.old) (λ written. Summarizes told.text written (W.written out.new) result) }
    ensures ends { SaysEnd (Some told.how) (Some []) result }
    ensures cause { IsOfSummary (Rose (W.faults out.old) (W.faults out.new)) result }
    ensures out_counted { W.faults out.old ≤ W.faults out.new }
{
    match write_all(out, told.text.as_slice()) {
        Ok(()) => status_by(Ok(told.how)),
        Err(SinkEnd::Failed) => Status::Unwritten(What::Output),
        Err(SinkEnd::Memory) => Status::Memory,
    }
}

//! The command `run`: it loads a model, runs it, writes its trace, and stores its image where that is asked
//! for.

ghost use Rattle.std.specs.Prelude.{◌≡◌, ◌≤◌, ℕ, [], IfSome};
ghost use Rattle.dsde_io.specs.Fault.{Rose};
ghost use Rattle.dsde_language.specs.Right.{IsRight};
ghost use Rattle.dsde_run_free.specs.given.run.Reading.{Told, TakesWanted};
ghost use Rattle.dsde_run_free.specs.given.run.Run.{Running, records_in};
ghost use Rattle.dsde_run_free.specs.given.run.SavedRuns.{image_left};
ghost use Rattle.dsde_cli.specs.Causes.{Cause, Holds, HoldsNone, IsBeforeRun, Tells};
ghost use Rattle.dsde_cli_command.specs.Commands.{run_asked};
ghost use Rattle.dsde_cli.specs.Asked.{pick_of, tells_on};
ghost use Rattle.dsde_cli.specs.Loads.{Has};
ghost use Rattle.dsde_cli.specs.RunOutcome.{Comes, SaysEnd};
ghost use Rattle.dsde_cli.specs.Saved.{IsOfStored, Leaves, Stores};
ghost use Rattle.dsde_cli_status.specs.given.cli_verdict.refusal_Refusal.{Refusal};
ghost use Rattle.dsde_cli_status.specs.given.cli_verdict.Verdict.{Refuses};
ghost use Rattle.dsde_cli.specs.Loaded.{own_of};
ghost use Rattle.dsde_cli.specs.Outcome.{Completes};

use crate::load::{Runnable, load_runnable};
use crate::run_and_store;
use dsde_cli_command::RunWords;
use dsde_cli_status::Status;
use dsde_cli_status::given::cli_verdict::one_verdict;
use dsde_cli_status::given::program::resolve;
use dsde_io::{Shelf, Sink, Source};
use dsde_run_free::given::run::Running;
use dsde_sound_runs::{inputs_arrive, runs_end};
use std::alloc::Global;

/// Runs the model of a name as the words ask for, and stores its image where they do.
pub(crate) fn load_and_run<F: Shelf, R: Source, W: Sink>(
    alloc: Global,
    run: &RunWords<'_>,
    shelf: &mut F,
    input: &mut R,
    out: &mut W,
) -> Status
    requires { run.now.turns ≤ 1_000_000_000 }
    ensures runs { (own : Running) → Holds run.now.model.now (F.held shelf.old) own
        → IfSome (R.left input.old) (λ bytes. IfSome (W.written out.old) (λ written.
        Comes own (pick_of run.now.only) (tells_on own (run_asked run.now)) bytes (R.left input.new) written (W.written out.new) result)) }
    ensures ends { (own : Running) → Holds run.now.model.now (F.held shelf.old) own
        → IfSome (R.left input.old) (λ bytes. SaysEnd (tells_on own (run_asked run.now) (records_in own bytes)).end (R.left input.new) result) }
    ensures stored { (own : Running) → Holds run.now.model.now (F.held shelf.old) own → result ≡ Status.Done
        → IfSome (R.left input.old) (λ bytes.
        Stores (run_asked run.now).save (image_left own.model (tells_on own (run_asked run.now) (records_in own bytes))) (F.held shelf.new)) }
    ensures complete { (own : Running) → Holds run.now.model.now (F.held shelf.old) own
        → ¬ (Rose (F.faults shelf.old) (F.faults shelf.new)) → ¬ (Rose (R.faults input.old) (R.faults input.new)) → ¬ (Rose (W.faults out.old) (W.faults out.new))
        → Completes own (tells_on own (run_asked run.now)) (R.left input.old) result }
    ensures taken { (own : Running) → Holds run.now.model.now (F.held shelf.old) own
        → Told (R.left input.old) (R.left input.new) (λ before. TakesWanted (tells_on own (run_asked run.now)) (records_in own before) [] before) }
    ensures idle { run.now.turns ≡ 0 → input.new ≡ input.old }
    ensures cause { Cause run.now.model.now (run_asked run.now).save (F.held shelf.old) (Rose (F.faults shelf.old) (F.faults shelf.new))
        (Rose (R.faults input.old) (R.faults input.new)) (Rose (W.faults out.old) (W.faults out.new)) result }
    ensures refused { (kind : Refusal) → (line column : ℕ)
        → Has run.now.model.now (F.held shelf.old) (λ bytes. Refuses bytes kind line column) → Tells kind line column result }
    ensures unrun { HoldsNone run.now.model.now (F.held shelf.old) → (input.new ≡ input.old) × (out.new ≡ out.old) }
    ensures untouched { IsBeforeRun result → (input.new ≡ input.old) × (out.new ≡ out.old) }
    ensures kept { Leaves (run_asked run.now).save (Rose (F.faults shelf.old) (F.faults shelf.new)) (F.held shelf.old) (F.held shelf.new) result }
    ensures shelf_counted { F.faults shelf.old ≤ F.faults shelf.new }
    ensures input_counted { R.faults input.old ≤ R.faults input.new }
    ensures out_counted { W.faults out.old ≤ W.faults out.new }
{
    // Laws: a text has one verdict, and the runs of an accepted model end.
    one_verdict();
    runs_end();
    inputs_arrive();
    match load_runnable(alloc, run.model, shelf) {
        Ok(loaded) => run_loaded(alloc, &loaded, run, shelf, input, out),
        Err(status) => status,
    }
}

/// Runs a model that was loaded, and stores its image where the words ask for it.
fn run_loaded<F: Shelf, R: Source, W: Sink>(
    alloc: Global,
    loaded: &Runnable,
    run: &RunWords<'_>,
    shelf: &mut F,
    input: &mut R,
    out: &mut W,
) -> Status
    requires right { IsRight loaded.now.model }
    requires turns { run.now.turns ≤ 1_000_000_000 }
    ensures comes { IfSome (R.left input.old) (λ bytes. IfSome (W.written out.old) (λ written.
        Comes (own_of loaded.now) (pick_of run.now.only) (tells_on (own_of loaded.now) (run_asked run.now)) bytes (R.left input.new) written (W.written out.new) result)) }
    ensures ends { IfSome (R.left input.old) (λ bytes.
        SaysEnd (tells_on (own_of loaded.now) (run_asked run.now) (records_in (own_of loaded.now) bytes)).end (R.left input.new) result) }
    ensures stored { result ≡ Status.Done → IfSome (R.left input.old) (λ bytes.
        Stores (run_asked run.now).save (image_left loaded.now.model (tells_on (own_of loaded.now) (run_asked run.now) (records_in (own_of loaded.now) bytes))) (F.held shelf.new)) }
    ensures taken { Told (R.left input.old) (R.left input.new) (λ before.
        TakesWanted (tells_on (own_of loaded.now) (run_asked run.now)) (records_in (own_of loaded.now) before) [] before) }
    ensures idle { run.now.turns ≡ 0 → input.new ≡ input.old }
    ensures cause { IsOfStored (run_asked run.now).save (Rose (F.faults shelf.old) (F.faults shelf.new))
        (Rose (R.faults input.old) (R.faults input.new)) (Rose (W.faults out.old) (W.faults out.new)) result }
    ensures kept { Leaves (run_asked run.now).save (Rose (F.faults shelf.old) (F.faults shelf.new)) (F.held shelf.old) (F.held shelf.new) result }
    ensures shelf_counted { F.faults shelf.old ≤ F.faults shelf.new }
    ensures input_counted { R.faults input.old ≤ R.faults input.new }
    ensures out_counted { W.faults out.old ≤ W.faults out.new }
{
    match resolve(alloc, &loaded.model) {
        Ok(program) => run_and_store(
            alloc,
            &Running::new(&program, &loaded.places),
            run,
            shelf,
            input,
            out,
        ),
        Err(_) => Status::Memory,
    }
}

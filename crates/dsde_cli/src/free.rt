//! The command `free`: it loads a model, runs it in orders of moves that are drawn, and writes its trace.

ghost use Rattle.std.specs.Prelude.{◌≡◌, ◌≤◌, ℕ, [], None, IfSome};
ghost use Rattle.dsde_io.specs.Fault.{Rose};
ghost use Rattle.dsde_language.specs.Right.{IsRight};
ghost use Rattle.dsde_run_free.specs.given.run.Reading.{Told, TakesWanted};
ghost use Rattle.dsde_run_free.specs.given.run.Run.{Running, records_in};
ghost use Rattle.dsde_cli_status.specs.given.trace.pick_Pick_TheVariants.{All};
ghost use Rattle.dsde_cli.specs.Causes.{Cause, Holds, HoldsNone, IsBeforeRun, Tells};
ghost use Rattle.dsde_cli.specs.Asked.{drawn_on};
ghost use Rattle.dsde_cli.specs.Loads.{Has};
ghost use Rattle.dsde_cli.specs.RunOutcome.{Comes, IsOfRun, SaysEnd};
ghost use Rattle.dsde_cli_status.specs.given.cli_verdict.refusal_Refusal.{Refusal};
ghost use Rattle.dsde_cli_status.specs.given.cli_verdict.Verdict.{Refuses};
ghost use Rattle.dsde_cli.specs.Loaded.{own_of};
ghost use Rattle.dsde_cli.specs.Outcome.{Completes};

use crate::load::{Runnable, load_runnable};
use crate::{drawn_runs_end, run_drawn};
use dsde_cli_status::Status;
use dsde_cli_status::given::cli_verdict::one_verdict;
use dsde_cli_status::given::program::resolve;
use dsde_io::{Shelf, Sink, Source};
use dsde_run_free::given::run::Running;
use dsde_sound_runs::inputs_arrive;
use std::alloc::Global;

/// Runs the model of a name for at most so many turns, whose components and executives move in the orders that
/// the words of the generator of a seed draw, and writes its trace.
pub(crate) fn load_and_free<F: Shelf, R: Source, W: Sink>(
    alloc: Global,
    name: &str,
    seed: u32,
    turns: u64,
    shelf: &mut F,
    input: &mut R,
    out: &mut W,
) -> Status
    requires { turns ≤ 1_000_000_000 }
    ensures runs { (own : Running) → Holds name.now (F.held shelf.old) own
        → IfSome (R.left input.old) (λ bytes. IfSome (W.written out.old) (λ written.
        Comes own All (drawn_on own seed turns) bytes (R.left input.new) written (W.written out.new) result)) }
    ensures ends { (own : Running) → Holds name.now (F.held shelf.old) own
        → IfSome (R.left input.old) (λ bytes. SaysEnd (drawn_on own seed turns (records_in own bytes)).end (R.left input.new) result) }
    ensures complete { (own : Running) → Holds name.now (F.held shelf.old) own
        → ¬ (Rose (F.faults shelf.old) (F.faults shelf.new)) → ¬ (Rose (R.faults input.old) (R.faults input.new)) → ¬ (Rose (W.faults out.old) (W.faults out.new))
        → Completes own (drawn_on own seed turns) (R.left input.old) result }
    ensures taken { (own : Running) → Holds name.now (F.held shelf.old) own
        → Told (R.left input.old) (R.left input.new) (λ before. TakesWanted (drawn_on own seed turns) (records_in own before) [] before) }
    ensures idle { turns ≡ 0 → input.new ≡ input.old }
    ensures cause { Cause name.now None (F.held shelf.old) (Rose (F.faults shelf.old) (F.faults shelf.new))
        (Rose (R.faults input.old) (R.faults input.new)) (Rose (W.faults out.old) (W.faults out.new)) result }
    ensures refused { (kind : Refusal) → (line column : ℕ)
        → Has name.now (F.held shelf.old) (λ bytes. Refuses bytes kind line column) → Tells kind line column result }
    ensures unrun { HoldsNone name.now (F.held shelf.old) → (input.new ≡ input.old) × (out.new ≡ out.old) }
    ensures untouched { IsBeforeRun result → (input.new ≡ input.old) × (out.new ≡ out.old) }
    ensures kept { F.held shelf.new ≡ F.held shelf.old }
    ensures shelf_counted { F.faults shelf.old ≤ F.faults shelf.new }
    ensures input_counted { R.faults input.old ≤ R.faults input.new }
    ensures out_counted { W.faults out.old ≤ W.faults out.new }
{
    // Laws: a text has one verdict, and the runs of an accepted model in drawn orders end.
    one_verdict();
    drawn_runs_end();
    inputs_arrive();
    match load_runnable(alloc, name, shelf) {
        Ok(loaded) => free_loaded(alloc, &loaded, seed, turns, input, out),
        Err(status) => status,
    }
}

/// Runs a model that was loaded in drawn orders, and writes its trace.
fn free_loaded<R: Source, W: Sink>(
    alloc: Global,
    loaded: &Runnable,
    seed: u32,
    turns: u64,
    input: &mut R,
    out: &mut W,
) -> Status
    requires right { IsRight loaded.now.model }
    requires turns { turns ≤ 1_000_000_000 }
    ensures comes { IfSome (R.left input.old) (λ bytes. IfSome (W.written out.old) (λ written.
        Comes (own_of loaded.now) All (drawn_on (own_of loaded.now) seed turns) bytes (R.left input.new) written (W.written out.new) result)) }
    ensures ends { IfSome (R.left input.old) (λ bytes.
        SaysEnd (drawn_on (own_of loaded.now) seed turns (records_in (own_of loaded.now) bytes)).end (R.left input.new) result) }
    ensures taken { Told (R.left input.old) (R.left input.new) (λ before.
        TakesWanted (drawn_on (own_of loaded.now) seed turns) (records_in (own_of loaded.now) before) [] before) }
    ensures idle { turns ≡ 0 → input.new ≡ input.old }
    ensures cause { IsOfRun (Rose (R.faults input.old) (R.faults input.new)) (Rose (W.faults out.old) (W.faults out.new)) result }
    ensures input_counted { R.faults input.old ≤ R.faults input.new }
    ensures out_counted { W.faults out.old ≤ W.faults out.new }
{
    match resolve(alloc, &loaded.model) {
        Ok(program) => run_drawn(
            alloc,
            &Running::new(&program, &loaded.places),
            seed,
            turns,
            input,
            out,
        ),
        Err(_) => Status::Memory,
    }
}

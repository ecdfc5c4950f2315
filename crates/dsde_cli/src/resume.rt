//! The command `resume`: it loads a model and the image of a run of it, takes the run up again, writes the rest
//! of its trace, and stores its image where that is asked for.

ghost use Rattle.std.specs.Prelude.{◌≡◌, ◌≤◌, ℕ, [], IfSome};
ghost use Rattle.dsde_io.specs.Fault.{Rose};
ghost use Rattle.dsde_language.specs.Right.{IsRight};
ghost use Rattle.dsde_run_free.specs.given.run.Reading.{Told, TakesWanted};
ghost use Rattle.dsde_run_free.specs.given.run.Run.{Running};
ghost use Rattle.dsde_run_free.specs.given.run.Resumed.{records_for, resumed, resumed_on};
ghost use Rattle.dsde_run_free.specs.given.run.SavedRuns.{image_left};
ghost use Rattle.dsde_sim_tree.specs.Engine.{Engine};
ghost use Rattle.dsde_cli.specs.Causes.{CauseResume, Holds, HoldsNone, IsBeforeRun, Tells};
ghost use Rattle.dsde_cli_command.specs.Commands.{run_asked};
ghost use Rattle.dsde_cli.specs.Asked.{pick_of};
ghost use Rattle.dsde_cli.specs.Back.{CauseBack, ComesBack, IsBeforeBack, IsMade, IsRefusedFor, NoneSaved, Restores, SaysBack, TellsSave};
ghost use Rattle.dsde_cli.specs.Loads.{Has};
ghost use Rattle.dsde_cli.specs.Saved.{Leaves, Stores};
ghost use Rattle.dsde_cli_status.specs.declared.status.SaveFault.{SaveFault};
ghost use Rattle.dsde_cli_status.specs.given.cli_verdict.refusal_Refusal.{Refusal};
ghost use Rattle.dsde_cli_status.specs.given.cli_verdict.Verdict.{Refuses};
ghost use Rattle.dsde_cli.specs.Loaded.{own_of};
ghost use Rattle.dsde_cli.specs.Outcome.{CompletesBack};

use crate::load::{Runnable, load_runnable};
use crate::resume_and_store;
use dsde_cli_command::RunWords;
use dsde_cli_status::given::cli_verdict::one_verdict;
use dsde_cli_status::given::program::resolve;
use dsde_cli_status::{SaveFault, Status};
use dsde_io::{Shelf, Sink, Source};
use dsde_run_free::given::run::Running;
use std::alloc::Global;

/// Takes a run of the model of a name up again with the image under another, as the words ask for, and stores its
/// image where they do.
pub(crate) fn load_and_resume<F: Shelf, R: Source, W: Sink>(
    alloc: Global,
    file: &str,
    run: &RunWords<'_>,
    shelf: &mut F,
    input: &mut R,
    out: &mut W,
) -> Status
    requires { run.now.turns ≤ 1_000_000_000 }
    ensures resumes { (own : Running) → Holds run.now.model.now (F.held shelf.old) own
        → (engine : Engine) → Has file.now (F.held shelf.old) (Restores own.model engine)
        → IfSome (R.left input.old) (λ bytes. IfSome (W.written out.old) (λ written.
        ComesBack own (pick_of run.now.only) run.now.turns engine bytes (R.left input.new) written (W.written out.new) result)) }
    ensures ends { (own : Running) → Holds run.now.model.now (F.held shelf.old) own
        → (engine : Engine) → Has file.now (F.held shelf.old) (Restores own.model engine)
        → IfSome (R.left input.old) (λ bytes. SaysBack own run.now.turns engine bytes (R.left input.new) result) }
    ensures stored { (own : Running) → Holds run.now.model.now (F.held shelf.old) own
        → (engine : Engine) → Has file.now (F.held shelf.old) (Restores own.model engine)
        → result ≡ Status.Done → IfSome (R.left input.old) (λ bytes.
        Stores (run_asked run.now).save (image_left own.model (resumed own bytes run.now.turns engine)) (F.held shelf.new)) }
    ensures complete { (own : Running) → Holds run.now.model.now (F.held shelf.old) own
        → (engine : Engine) → Has file.now (F.held shelf.old) (Restores own.model engine)
        → ¬ (Rose (F.faults shelf.old) (F.faults shelf.new)) → ¬ (Rose (R.faults input.old) (R.faults input.new)) → ¬ (Rose (W.faults out.old) (W.faults out.new))
        → CompletesBack own run.now.turns engine (R.left input.old) result }
    ensures taken { (own : Running) → Holds run.now.model.now (F.held shelf.old) own
        → (engine : Engine) → Has file.now (F.held shelf.old) (Restores own.model engine)
        → Told (R.left input.old) (R.left input.new) (λ before.
        TakesWanted (resumed_on own run.now.turns engine) (records_for own engine before) [] before) }
    ensures cause { CauseResume run.now.model.now file.now (run_asked run.now).save (F.held shelf.old) (Rose (F.faults shelf.old) (F.faults shelf.new))
        (Rose (R.faults input.old) (R.faults input.new)) (Rose (W.faults out.old) (W.faults out.new)) result }
    ensures refused { (kind : Refusal) → (line column : ℕ)
        → Has run.now.model.now (F.held shelf.old) (λ bytes. Refuses bytes kind line column) → Tells kind line column result }
    ensures refused_save { (own : Running) → Holds run.now.model.now (F.held shelf.old) own
        → (fault : SaveFault) → Has file.now (F.held shelf.old) (IsRefusedFor own.model fault) → TellsSave fault result }
    ensures unrun { HoldsNone run.now.model.now (F.held shelf.old) → (input.new ≡ input.old) × (out.new ≡ out.old) }
    ensures unresumed { (own : Running) → Holds run.now.model.now (F.held shelf.old) own → NoneSaved own.model file.now (F.held shelf.old)
        → (input.new ≡ input.old) × (out.new ≡ out.old) }
    ensures untouched { IsBeforeRun result → (input.new ≡ input.old) × (out.new ≡ out.old) }
    ensures few { result ≡ Status.BadSave SaveFault.FewRecords → out.new ≡ out.old }
    ensures kept { Leaves (run_asked run.now).save (Rose (F.faults shelf.old) (F.faults shelf.new)) (F.held shelf.old) (F.held shelf.new) result }
    ensures shelf_counted { F.faults shelf.old ≤ F.faults shelf.new }
    ensures input_counted { R.faults input.old ≤ R.faults input.new }
    ensures out_counted { W.faults out.old ≤ W.faults out.new }
{
    // A law: a text has one verdict.
    one_verdict();
    match load_runnable(alloc, run.model, shelf) {
        Ok(loaded) => resume_loaded(alloc, &loaded, file, run, shelf, input, out),
        Err(status) => status,
    }
}

/// Takes a run of a model that was loaded up again, and stores its image where the words ask for it.
fn resume_loaded<F: Shelf, R: Source, W: Sink>(
    alloc: Global,
    loaded: &Runnable,
    file: &str,
    run: &RunWords<'_>,
    shelf: &mut F,
    input: &mut R,
    out: &mut W,
) -> Status
    requires right { IsRight loaded.now.model }
    requires turns { run.now.turns ≤ 1_000_000_000 }
    ensures resumes { (engine : Engine) → Has file.now (F.held shelf.old) (Restores loaded.now.model engine)
        → IfSome (R.left input.old) (λ bytes. IfSome (W.written out.old) (λ written.
        ComesBack (own_of loaded.now) (pick_of run.now.only) run.now.turns engine bytes (R.left input.new) written (W.written out.new) result)) }
    ensures ends { (engine : Engine) → Has file.now (F.held shelf.old) (Restores loaded.now.model engine)
        → IfSome (R.left input.old) (λ bytes. SaysBack (own_of loaded.now) run.now.turns engine bytes (R.left input.new) result) }
    ensures stored { (engine : Engine) → Has file.now (F.held shelf.old) (Restores loaded.now.model engine)
        → result ≡ Status.Done → IfSome (R.left input.old) (λ bytes.
        Stores (run_asked run.now).save (image_left loaded.now.model (resumed (own_of loaded.now) bytes run.now.turns engine)) (F.held shelf.new)) }
    ensures taken { (engine : Engine) → Has file.now (F.held shelf.old) (Restores loaded.now.model engine)
        → Told (R.left input.old) (R.left input.new) (λ before.
        TakesWanted (resumed_on (own_of loaded.now) run.now.turns engine) (records_for (own_of loaded.now) engine before) [] before) }
    ensures cause { CauseBack loaded.now.model file.now (run_asked run.now).save (F.held shelf.old) (Rose (F.faults shelf.old) (F.faults shelf.new))
        (Rose (R.faults input.old) (R.faults input.new)) (Rose (W.faults out.old) (W.faults out.new)) result }
    ensures made { (engine : Engine) → Has file.now (F.held shelf.old) (Restores loaded.now.model engine)
        → IsMade (run_asked run.now).save (Rose (F.faults shelf.old) (F.faults shelf.new)) (Rose (R.faults input.old) (R.faults input.new)) (Rose (W.faults out.old) (W.faults out.new)) result }
    ensures refused { (fault : SaveFault) → Has file.now (F.held shelf.old) (IsRefusedFor loaded.now.model fault) → TellsSave fault result }
    ensures unresumed { NoneSaved loaded.now.model file.now (F.held shelf.old) → (input.new ≡ input.old) × (out.new ≡ out.old) }
    ensures untouched { IsBeforeBack result → (input.new ≡ input.old) × (out.new ≡ out.old) }
    ensures few { result ≡ Status.BadSave SaveFault.FewRecords → out.new ≡ out.old }
    ensures kept { Leaves (run_asked run.now).save (Rose (F.faults shelf.old) (F.faults shelf.new)) (F.held shelf.old) (F.held shelf.new) result }
    ensures shelf_counted { F.faults shelf.old ≤ F.faults shelf.new }
    ensures input_counted { R.faults input.old ≤ R.faults input.new }
    ensures out_counted { W.faults out.old ≤ W.faults out.new }
{
    match resolve(alloc, &loaded.model) {
        Ok(program) => resume_and_store(
            alloc,
            &Running::new(&program, &loaded.places),
            file,
            run,
            shelf,
            input,
            out,
        ),
        Err(_) => Status::Memory,
    }
}

//! A run is taken up again with the image of its engine, and its image is stored where that is asked for.

ghost use Rattle.std.specs.Prelude.{◌≡◌, ◌≤◌, [], IfOk, IfErr, IfSome};
ghost use Rattle.dsde_io.specs.Fault.{Rose};
ghost use Rattle.dsde_run_free.specs.given.sim_working.Working.{working};
ghost use Rattle.dsde_sim_tree.specs.Engine.{Engine};
ghost use Rattle.dsde_run_free.specs.given.run.Reading.{Told, TakesWanted};
ghost use Rattle.dsde_run_free.specs.given.run.Resumed.{records_for, resumed, resumed_on};
ghost use Rattle.dsde_run_free.specs.given.run.SavedRuns.{image_left};
ghost use Rattle.dsde_run_free.specs.given.run.Saved.{at_work, IsRestored};
ghost use Rattle.dsde_cli_command.specs.Commands.{run_asked};
ghost use Rattle.dsde_cli_status.specs.declared.status.SaveFault.{SaveFault};
ghost use Rattle.dsde_cli.specs.Asked.{pick_of};
ghost use Rattle.dsde_cli.specs.Back.{CauseBack, ComesBack, IsBeforeBack, IsLoadCut, IsMade, IsOfBack, IsReady, IsRefused, IsRefusedFor, NoSave, NoneRestored, NoneSaved, RefusesSave, Restores, RestoresSome, SaysBack, TellsSave, status_back, unread_save, unrestored};
ghost use Rattle.dsde_cli.specs.Loads.{Has, Under};
ghost use Rattle.dsde_cli.specs.Saved.{Leaves, Stores};

use crate::save::store_where_asked;
use crate::whole_runs::{pick_of, status_by};
use dsde_cli_command::RunWords;
use dsde_cli_status::given::program::Program;
use dsde_cli_status::{SaveFault, Status, What, Why};
use dsde_io::{Shelf, ShelfEnd, Sink, Source};
use dsde_run_free::given::core_engine::Core;
use dsde_run_free::given::run::{RestoreError, Running, Unresumed, restore, resume_turns};
use dsde_sim_tree::Finish;
use std::alloc::Global;

/// The most bytes of an image that is read.
const LONGEST_IMAGE: u64 = 268_435_456;

/// Takes the run of a program up again with the image under a name: skips the records of the input that were
/// taken before, runs on for at most as many turns as are asked for, writes the lines of its trace that are
/// kept as they come, and then, where the run ended by its bound or quiet, stores its image under the name
/// that is given, if one is. The input is the whole input of the run from its start, and behind the records
/// skipped none may be before the image's time. The status says how it ended.
pub fn resume_and_store<F: Shelf, R: Source, W: Sink>(
    alloc: Global,
    own: &Running<'_>,
    file: &str,
    run: &RunWords<'_>,
    shelf: &mut F,
    input: &mut R,
    out: &mut W,
) -> Status
    requires { run.now.turns ≤ 1_000_000_000 }
    ensures comes { (engine : Engine) → Has file.now (F.held shelf.old) (Restores own.now.model engine)
        → IfSome (R.left input.old) (λ bytes. IfSome (W.written out.old) (λ written.
        ComesBack own.now (pick_of run.now.only) run.now.turns engine bytes (R.left input.new) written (W.written out.new) result)) }
    ensures ends { (engine : Engine) → Has file.now (F.held shelf.old) (Restores own.now.model engine)
        → IfSome (R.left input.old) (λ bytes. SaysBack own.now run.now.turns engine bytes (R.left input.new) result) }
    ensures stored { (engine : Engine) → Has file.now (F.held shelf.old) (Restores own.now.model engine)
        → result ≡ Status.Done → IfSome (R.left input.old) (λ bytes.
        Stores (run_asked run.now).save (image_left own.now.model (resumed own.now bytes run.now.turns engine)) (F.held shelf.new)) }
    ensures taken { (engine : Engine) → Has file.now (F.held shelf.old) (Restores own.now.model engine)
        → Told (R.left input.old) (R.left input.new) (λ before.
        TakesWanted (resumed_on own.now run.now.turns engine) (records_for own.now engine before) [] before) }
    ensures cause { CauseBack own.now.model file.now (run_asked run.now).save (F.held shelf.old) (Rose (F.faults shelf.old) (F.faults shelf.new))
        (Rose (R.faults input.old) (R.faults input.new)) (Rose (W.faults out.old) (W.faults out.new)) result }
    ensures made { (engine : Engine) → Has file.now (F.held shelf.old) (Restores own.now.model engine)
        → IsMade (run_asked run.now).save (Rose (F.faults shelf.old) (F.faults shelf.new)) (Rose (R.faults input.old) (R.faults input.new)) (Rose (W.faults out.old) (W.faults out.new)) result }
    ensures refused { (fault : SaveFault) → Has file.now (F.held shelf.old) (IsRefusedFor own.now.model fault) → TellsSave fault result }
    ensures unrun { NoneSaved own.now.model file.now (F.held shelf.old) → (input.new ≡ input.old) × (out.new ≡ out.old) }
    ensures untouched { IsBeforeBack result → (input.new ≡ input.old) × (out.new ≡ out.old) }
    ensures few { result ≡ Status.BadSave SaveFault.FewRecords → out.new ≡ out.old }
    ensures kept { Leaves (run_asked run.now).save (Rose (F.faults shelf.old) (F.faults shelf.new)) (F.held shelf.old) (F.held shelf.new) result }
    ensures shelf_counted { F.faults shelf.old ≤ F.faults shelf.new }
    ensures input_counted { R.faults input.old ≤ R.faults input.new }
    ensures out_counted { W.faults out.old ≤ W.faults out.new }
{
    match load_engine(alloc, own.program(), file, shelf) {
        Ok(mut core) => resume_loaded(alloc, own, &mut core, run, shelf, input, out),
        Err(status) => status,
    }
}

/// The engine of a program whose image is under a name, or the status of a call that finds none.
fn load_engine<'p, F: Shelf>(
    alloc: Global,
    program: &'p Program<'p>,
    file: &str,
    shelf: &mut F,
) -> Result<Core<'p>, Status>
    ensures ready { IfOk result (IsReady program.now) }
    ensures restored { IfOk result (λ core. Under file.now (F.held shelf.old) (RestoresSome program.now)) }
    ensures only { IfOk result (λ core. (engine : Engine) → Has file.now (F.held shelf.old) (Restores program.now engine) → at_work core ≡ working program.now engine) }
    ensures none { IfErr result (NoSave program.now file.now (F.held shelf.old) (Rose (F.faults shelf.old) (F.faults shelf.new))) }
    ensures cut { IfErr result (λ status. (engine : Engine) → Has file.now (F.held shelf.old) (Restores program.now engine) → IsLoadCut status) }
    ensures refused { (fault : SaveFault) → Has file.now (F.held shelf.old) (IsRefusedFor program.now fault) → IsRefused fault result }
    ensures kept { F.held shelf.new ≡ F.held shelf.old }
    ensures counted { F.faults shelf.old ≤ F.faults shelf.new }
{
    match shelf.load(alloc, file, LONGEST_IMAGE) {
        Ok(bytes) => restored(alloc, program, bytes.as_slice()),
        Err(end) => Err(unread_save(end)),
    }
}

fn unread_save(end: ShelfEnd) -> Status
    ensures { result ≡ unread_save end }
{
    let why = match end {
        ShelfEnd::Absent => Why::Absent,
        ShelfEnd::TooLong => Why::TooLong,
        ShelfEnd::Failed => Why::Failed,
        ShelfEnd::Memory => return Status::Memory,
    };
    Status::Unread {
        what: What::Save,
        why,
    }
}

/// The engine of a program whose image these bytes are.
fn restored<'p>(alloc: Global, program: &'p Program<'p>, bytes: &[u8]) -> Result<Core<'p>, Status>
    ensures ready { IfOk result (IsReady program.now) }
    ensures restored { IfOk result (λ core. IsRestored program.now bytes.now (at_work core)) }
    ensures only { IfOk result (λ core. (engine : Engine) → IsRestored program.now bytes.now (working program.now engine) → at_work core ≡ working program.now engine) }
    ensures none { IfErr result (NoneRestored program.now bytes.now) }
    ensures cut { IfErr result (λ status. (engine : Engine) → IsRestored program.now bytes.now (working program.now engine) → status ≡ Status.Memory) }
    ensures refused { (fault : SaveFault) → RefusesSave program.now fault bytes.now → IsRefused fault result }
{
    match restore(alloc, program, bytes) {
        Ok(core) => Ok(core),
        Err(why) => Err(unrestored(why)),
    }
}

fn unrestored(why: RestoreError) -> Status
    ensures { result ≡ unrestored why }
{
    match why {
        RestoreError::NotJson => Status::BadSave(SaveFault::NotJson),
        RestoreError::WrongForm => Status::BadSave(SaveFault::WrongForm),
        RestoreError::DoesNotFit(path) => Status::BadSave(SaveFault::DoesNotFit(path)),
        RestoreError::Memory => Status::Memory,
    }
}

/// Takes a run up again with its engine, and stores its image where that is asked for.
fn resume_loaded<F: Shelf, R: Source, W: Sink>(
    alloc: Global,
    own: &Running<'_>,
    core: &mut Core<'_>,
    run: &RunWords<'_>,
    shelf: &mut F,
    input: &mut R,
    out: &mut W,
) -> Status
    requires turns { run.now.turns ≤ 1_000_000_000 }
    requires ready { IsReady own.now.model core.old }
    ensures comes { IfSome (R.left input.old) (λ bytes. IfSome (W.written out.old) (λ written.
        ComesBack own.now (pick_of run.now.only) run.now.turns core.old.engine bytes (R.left input.new) written (W.written out.new) result)) }
    ensures ends { IfSome (R.left input.old) (λ bytes. SaysBack own.now run.now.turns core.old.engine bytes (R.left input.new) result) }
    ensures stored { result ≡ Status.Done → IfSome (R.left input.old) (λ bytes.
        Stores (run_asked run.now).save (image_left own.now.model (resumed own.now bytes run.now.turns core.old.engine)) (F.held shelf.new)) }
    ensures taken { Told (R.left input.old) (R.left input.new) (λ before.
        TakesWanted (resumed_on own.now run.now.turns core.old.engine) (records_for own.now core.old.engine before) [] before) }
    ensures cause { IsOfBack (run_asked run.now).save (Rose (F.faults shelf.old) (F.faults shelf.new))
        (Rose (R.faults input.old) (R.faults input.new)) (Rose (W.faults out.old) (W.faults out.new)) result }
    ensures few { result ≡ Status.BadSave SaveFault.FewRecords → out.new ≡ out.old }
    ensures kept { Leaves (run_asked run.now).save (Rose (F.faults shelf.old) (F.faults shelf.new)) (F.held shelf.old) (F.held shelf.new) result }
    ensures shelf_counted { F.faults shelf.old ≤ F.faults shelf.new }
    ensures input_counted { R.faults input.old ≤ R.faults input.new }
    ensures out_counted { W.faults out.old ≤ W.faults out.new }
{
    let answer = resume_turns(alloc, core, input, out, own, pick_of(run.only), run.turns);
    let status = status_back(answer);
    store_where_asked(alloc, status, core, run.save, shelf)
}

/// The status of a run that was taken up again and came to this.
fn status_back(answer: Result<Finish, Unresumed>) -> Status
    ensures { result ≡ status_back answer }
{
    match answer {
        Ok(how) => status_by(Ok(how)),
        Err(Unresumed::Cut(cut)) => status_by(Err(cut)),
        Err(Unresumed::FewRecords) => Status::BadSave(SaveFault::FewRecords),
    }
}

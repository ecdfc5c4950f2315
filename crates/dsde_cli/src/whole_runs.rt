//! A program is run, and the image of its run is stored where that is asked for.

ghost use Rattle.std.specs.Prelude.{◌≡◌, ◌≤◌, [], IfSome};
ghost use Rattle.dsde_io.specs.Fault.{Rose};
ghost use Rattle.dsde_run_free.specs.given.run.Reading.{Told, TakesWanted};
ghost use Rattle.dsde_run_free.specs.given.run.Run.{records_in};
ghost use Rattle.dsde_run_free.specs.given.run.SavedRuns.{image_left};
ghost use Rattle.dsde_cli_command.specs.Commands.{run_asked};
ghost use Rattle.dsde_cli.specs.Asked.{pick_of, tells_on};
ghost use Rattle.dsde_cli.specs.RunOutcome.{Comes, SaysEnd, status_by};
ghost use Rattle.dsde_cli.specs.Saved.{IsOfStored, Leaves, Stores};

use crate::save::store_left;
use dsde_cli_command::{Only, RunWords};
use dsde_cli_status::given::trace::Pick;
use dsde_cli_status::{Status, What, Why};
use dsde_io::{Shelf, Sink, Source};
use dsde_run_free::given::run::{Cut, Running, run_leaving};
use dsde_sim_tree::Finish;
use std::alloc::Global;

/// Runs a program from its start on the input for at most as many turns as are asked for, writes the lines
/// of its trace that are kept as they come, and then, where the run ended by its bound or quiet, stores its
/// image under the name that is given, if one is. The status says how it ended.
pub fn run_and_store<F: Shelf, R: Source, W: Sink>(
    alloc: Global,
    own: &Running<'_>,
    run: &RunWords<'_>,
    shelf: &mut F,
    input: &mut R,
    out: &mut W,
) -> Status
    requires { run.now.turns ≤ 1_000_000_000 }
    ensures comes { IfSome (R.left input.old) (λ bytes. IfSome (W.written out.old) (λ written.
        Comes own.now (pick_of run.now.only) (tells_on own.now (run_asked run.now)) bytes (R.left input.new) written (W.written out.new) result)) }
    ensures ends { IfSome (R.left input.old) (λ bytes.
        SaysEnd (tells_on own.now (run_asked run.now) (records_in own.now bytes)).end (R.left input.new) result) }
    ensures stored { result ≡ Status.Done → IfSome (R.left input.old) (λ bytes.
        Stores (run_asked run.now).save (image_left own.now.model (tells_on own.now (run_asked run.now) (records_in own.now bytes))) (F.held shelf.new)) }
    ensures taken { Told (R.left input.old) (R.left input.new) (λ before.
        TakesWanted (tells_on own.now (run_asked run.now)) (records_in own.now before) [] before) }
    ensures idle { run.now.turns ≡ 0 → input.new ≡ input.old }
    ensures cause { IsOfStored (run_asked run.now).save (Rose (F.faults shelf.old) (F.faults shelf.new))
        (Rose (R.faults input.old) (R.faults input.new)) (Rose (W.faults out.old) (W.faults out.new)) result }
    ensures kept { Leaves (run_asked run.now).save (Rose (F.faults shelf.old) (F.faults shelf.new)) (F.held shelf.old) (F.held shelf.new) result }
    ensures shelf_counted { F.faults shelf.old ≤ F.faults shelf.new }
    ensures input_counted { R.faults input.old ≤ R.faults input.new }
    ensures out_counted { W.faults out.old ≤ W.faults out.new }
{
    let mut left = None;
    let answer = run_leaving(
        alloc,
        own,
        pick_of(run.only),
        run.turns,
        input,
        out,
        &mut left,
    );
    store_left(alloc, status_by(answer), &left, run.save, shelf)
}

/// The lines that a command keeps: all, where it does not say which.
pub(crate) fn pick_of(only: Option<Only>) -> Pick
    ensures { result ≡ pick_of only }
{
    match only {
        None => Pick::All,
        Some(Only::Outputs) => Pick::Outputs,
        Some(Only::Structure) => Pick::Structure,
    }
}

/// The status of a run that came to this.
pub fn status_by(answer: Result<Finish, Cut>) -> Status
    ensures { result ≡ status_by answer }
{
    match answer {
        Ok(Finish::Bound | Finish::Quiet) => Status::Done,
        Ok(Finish::Input { kind, line }) => Status::BadInput { kind, line },
        Ok(Finish::Fault(fault)) => Status::ModelFault(fault),
        Err(Cut::ReadFault) => Status::Unread {
            what: What::Input,
            why: Why::Failed,
        },
        Err(Cut::Unwritten) => Status::Unwritten(What::Output),
        Err(Cut::Memory) => Status::Memory,
    }
}

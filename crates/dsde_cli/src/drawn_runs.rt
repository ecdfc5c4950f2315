//! A program is run in orders of moves that are drawn.

ghost use Rattle.std.specs.Prelude.{◌≡◌, ◌≤◌, [], IfSome};
ghost use Rattle.dsde_io.specs.Fault.{Rose};
ghost use Rattle.dsde_run_free.specs.given.run.Reading.{Told, TakesWanted};
ghost use Rattle.dsde_run_free.specs.given.run.Run.{records_in};
ghost use Rattle.dsde_cli_status.specs.given.trace.pick_Pick_TheVariants.{All};
ghost use Rattle.dsde_cli.specs.Asked.{drawn_on};
ghost use Rattle.dsde_cli.specs.RunOutcome.{Comes, IsOfRun, SaysEnd};

use crate::whole_runs::status_by;
use dsde_cli_status::Status;
use dsde_cli_status::given::trace::Pick;
use dsde_io::{Sink, Source};
use dsde_run_free::given::run::Running;
use dsde_run_free::run_free;
use std::alloc::Global;

/// Runs a program from its start on the input for at most so many turns, in each of which those that move do so
/// in the order that the next words of the generator of this seed draw, and writes all lines of its trace as they
/// come. The status says how it ended.
pub fn run_drawn<R: Source, W: Sink>(
    alloc: Global,
    own: &Running<'_>,
    seed: u32,
    turns: u64,
    input: &mut R,
    out: &mut W,
) -> Status
    requires { turns ≤ 1_000_000_000 }
    ensures comes { IfSome (R.left input.old) (λ bytes. IfSome (W.written out.old) (λ written.
        Comes own.now All (drawn_on own.now seed turns) bytes (R.left input.new) written (W.written out.new) result)) }
    ensures ends { IfSome (R.left input.old) (λ bytes. SaysEnd (drawn_on own.now seed turns (records_in own.now bytes)).end (R.left input.new) result) }
    ensures taken { Told (R.left input.old) (R.left input.new) (λ before.
        TakesWanted (drawn_on own.now seed turns) (records_in own.now before) [] before) }
    ensures idle { turns ≡ 0 → input.new ≡ input.old }
    ensures cause { IsOfRun (Rose (R.faults input.old) (R.faults input.new)) (Rose (W.faults out.old) (W.faults out.new)) result }
    ensures input_counted { R.faults input.old ≤ R.faults input.new }
    ensures out_counted { W.faults out.old ≤ W.faults out.new }
{
    let answer = run_free(alloc, own, Pick::All, u64::from(seed), turns, input, out);
    status_by(answer)
}

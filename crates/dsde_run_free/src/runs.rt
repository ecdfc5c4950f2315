//! A run whose turns move in orders that the words of a generator draw.

ghost use Rattle.std.specs.Prelude.{◌≡◌, ◌≤◌, Ok, [], IsErrOf};
ghost use Rattle.dsde_io.specs.Fault.{Rose};
ghost use Rattle.dsde_run.specs.Run.{records_in};
ghost use Rattle.dsde_run.specs.Reading.{ComesWhole, TakesWanted, Told};
ghost use Rattle.dsde_run_free.specs.Free.{free_run};

use crate::Free;
use dsde_io::{Sink, Source};
use dsde_run::given::trace::Pick;
use dsde_run::{Cut, Running, run_started};
use dsde_sim_tree::Finish;
use dsde_values::Seq;
use std::alloc::Global;

/// Runs a program from its start, for at most this many turns, which are no more than 1,000,000,000. In each
/// turn the components and the executives that move do so in the order that the next words of the generator of
/// this seed draw, of which each takes one: an executive moves after all beneath its network. The start's lines
/// are handed on before the first record is wanted.
///
/// The trace is that of the run in those orders, and the answer is how that run ended. `Unwritten` and `ReadFault`
/// come only where the sink and the source counted a fault, `Memory` at want of memory; after each of them the
/// sink has the front of that trace.
pub fn run_free<R: Source, W: Sink>(
    alloc: Global,
    own: &Running<'_>,
    pick: Pick,
    seed: u64,
    turns: u64,
    source: &mut R,
    sink: &mut W,
) -> Result<Finish, Cut>
    requires turns { turns ≤ 1_000_000_000 }

    ensures comes { Told (R.left source.old) (R.left source.new) (λ before.
        ComesWhole own.now pick (λ records. free_run own.now seed records turns) (records_in own.now before) (W.written sink.old) (W.written sink.new) result before) }
    ensures taken { Told (R.left source.old) (R.left source.new) (λ before.
        TakesWanted (λ records. free_run own.now seed records turns) (records_in own.now before) [] before) }
    ensures quiet { result ≡ Ok Finish.Quiet → Told (R.left source.old) (R.left source.new) (λ _ after. after ≡ []) }

    ensures unread { IsErrOf result Cut.ReadFault → Rose (R.faults source.old) (R.faults source.new) }
    ensures unwritten { IsErrOf result Cut.Unwritten → Rose (W.faults sink.old) (W.faults sink.new) }
    ensures reads_counted { R.faults source.old ≤ R.faults source.new }
    ensures writes_counted { W.faults sink.old ≤ W.faults sink.new }
    ensures idle { turns ≡ 0 → source.new ≡ source.old }
{
    let mut events = Seq::new(alloc);
    let started = Free::start(alloc, own.program(), seed, &mut events);
    let mut left = None;
    run_started(
        alloc,
        started,
        events.as_slice(),
        own,
        pick,
        turns,
        source,
        sink,
        &mut left,
    )
}

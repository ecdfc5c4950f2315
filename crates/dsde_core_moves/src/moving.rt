//! A component or an executive moves where it lies.

ghost use Rattle.std.specs.Prelude.{◌≡◌, ◌+◌, ◌<◌, ◌≤◌, ◌^◌, ◌∷◌, length, List, IsSome, OnOk};
ghost use Rattle.dsde_bank.specs.declared.handle.Handle.{Handle};
ghost use Rattle.dsde_values.specs.When.{IsMoment};
ghost use Rattle.dsde_sim_changing.specs.given.system.Fitting.{FitsInputs, FitsLeaf};
ghost use Rattle.dsde_sim_changing.specs.given.system.Program.{system};
ghost use Rattle.dsde_sim_tree.specs.Told.{◌then◌, Tells};
ghost use Rattle.dsde_sim_tree.specs.Move.{take_move};
ghost use Rattle.dsde_core_flat.specs.given.grove.Grove.{value_of, IsTree};
ghost use Rattle.dsde_core_flat.specs.given.sim_movers.Work.{work};
ghost use Rattle.dsde_core_flat.specs.Scheduled.{held_leaf, IsScheduledBut};
ghost use Rattle.dsde_core_flat.specs.Shown.{leaf_in};
ghost use Rattle.dsde_core_moves.specs.Moved.{after, put_under, StaysOf};

use crate::move_held::{put_moved, take_leaf};
use dsde_bank::Handle;
use dsde_base::Steps;
use dsde_core_flat::Spot;
use dsde_core_flat::given::grove::Grove;
use dsde_core_flat::given::sim_movers::steps_tell_their_work;
use dsde_queue::Queue;
use dsde_sim_changing::given::program::Program;
use dsde_sim_moving::take_move;
use dsde_sim_tree::given::formalism::MoveKind;
use dsde_sim_tree::{Event, TurnEnd};
use dsde_values::{Path, Seq, Values};
use std::alloc::Global;
use std::sync::ledger::Ledger;

/// The component or the executive under a handle, at this path, takes this transition with what came to it,
/// which is told in an event that takes the path, and its next event is scheduled: it waits no longer. Counts
/// at most 4 looks. A fault ends it, or `Memory` where there is none: then one without arguments and state may
/// lie there.
pub fn component_moves<L: Ledger>(
    alloc: Global,
    program: &Program,
    grove: &mut Grove<Spot>,
    queue: &mut Queue,
    handle: Handle,
    kind: MoveKind,
    path: Path,
    time: u64,
    got: Seq<Values>,
    events: &mut Seq<Event>,
    looks: &mut Steps<L>,
) -> Result<(), TurnEnd>
    requires moment { IsMoment time }
    requires live { IsSome (held_leaf (value_of grove.old handle)) }
    requires fits { FitsLeaf program.now (leaf_in (value_of grove.old handle)) }
    requires got { FitsInputs program.now (leaf_in (value_of grove.old handle)).model.0 got }
    requires few { length got < 2 ^ 32 }
    ensures told { Tells (take_move (system program.now) (leaf_in (value_of grove.old handle)) kind path time got then put_under grove.old handle) events.old events.new (after result grove.new) }
    ensures fits { OnOk result (FitsLeaf program.now (leaf_in (value_of grove.new handle))) }
    ensures stays { OnOk result (StaysOf (leaf_in (value_of grove.old handle)) (leaf_in (value_of grove.new handle))) }
    ensures waits { (rest : List Handle) → IsScheduledBut grove.old (handle ∷ rest) queue.old.pairs → OnOk result (IsScheduledBut grove.new rest queue.new.pairs) }
    ensures tree { OnOk result (IsTree grove.new) }
    ensures longer { OnOk result (length queue.new.pairs ≤ length queue.old.pairs + 1) }
    ensures work { OnOk result (work events.new ≡ work events.old + 1) }
    ensures ticks { looks.new ≤ looks.old + 4 }
{
    steps_tell_their_work();
    queue.reserve(1)?;
    let leaf = take_leaf(alloc, grove, handle, looks);
    let moved = take_move(alloc, program, leaf, kind, path, time, got, events)?;
    put_moved(grove, queue, handle, moved, looks);
    Ok(())
}

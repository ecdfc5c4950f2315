//! A component moves.

ghost use Rattle.std.specs.Prelude.{◌≡◌, ◌≢◌, ◌+◌, ◌<◌, ◌≤◌, ◌^◌, ◌∷◌, ℕ, length, List, Some, OnOk};
ghost use Rattle.dsde_bank.specs.declared.handle.Handle.{Handle};
ghost use Rattle.dsde_values.specs.Path.{root};
ghost use Rattle.dsde_values.specs.When.{IsMoment};
ghost use Rattle.dsde_sim_tree.specs.given.formalism.Leaf.{kind_of};
ghost use Rattle.dsde_sim_changing.specs.given.system.Fitting.{FitsInputs};
ghost use Rattle.dsde_sim_changing.specs.given.system.Program.{system};
ghost use Rattle.dsde_sim_tree.specs.Told.{Tells};
ghost use Rattle.dsde_core_flat.specs.given.grove.Grove.{value_of};
ghost use Rattle.dsde_core_flat.specs.given.sim_movers.Movers.{move_one};
ghost use Rattle.dsde_core_flat.specs.given.sim_movers.Work.{work};
ghost use Rattle.dsde_core_flat.specs.Scheduled.{IsScheduledBut};
ghost use Rattle.dsde_core_moves.specs.Flat.{delivery_of, leaf_of, tree_of, with_tree, IsComponent, IsThere, Stands};
ghost use Rattle.dsde_core_moves.specs.declared.flat.Mover.{Mover as AMover};

use crate::component_moves;
use crate::flat::{Flat, Mover};
use dsde_base::Steps;
use dsde_core_flat::given::sim_movers::movers_take_their_steps;
use dsde_sim_changing::given::program::Program;
use dsde_sim_tree::given::formalism::MoveKind;
use dsde_sim_tree::{Event, TurnEnd};
use dsde_values::Seq;
use std::alloc::Global;
use std::sync::ledger::Ledger;

/// An atomic component takes this transition with what it received, where it lies: its step in the tree. Its
/// next event is scheduled, and it waits no longer; under each other handle lies what lay there. Counts at most
/// 4 looks. A fault ends it, or `Memory` where there is none.
pub fn component_steps<L: Ledger>(
    alloc: Global,
    program: &Program,
    flat: &mut Flat,
    mover: Mover,
    kind: MoveKind,
    time: u64,
    events: &mut Seq<Event>,
    looks: &mut Steps<L>,
) -> Result<(), TurnEnd>
    requires moment { IsMoment time }
    requires stands { Stands program.now flat.old }
    requires there { IsThere flat.old mover }
    requires component { IsComponent flat.old mover }
    requires kind { kind_of (leaf_of flat.old mover) time mover.got ≡ Some kind }
    requires got { FitsInputs program.now (leaf_of flat.old mover).model.0 mover.got }
    requires few { length mover.got < 2 ^ 32 }
    ensures told { (room : ℕ) → Tells (move_one (system program.now) root time (delivery_of mover) (tree_of flat.old) room) events.old events.new (with_tree flat.new room result) }
    ensures stands { OnOk result (Stands program.now flat.new) }
    ensures others { OnOk result ((other : AMover) → IsThere flat.old other → IsThere flat.new other) }
    ensures kept { OnOk result ((handle : Handle) → handle ≢ mover.handle → value_of flat.new.grove handle ≡ value_of flat.old.grove handle) }
    ensures waits { (rest : List Handle) → IsScheduledBut flat.old.grove (mover.handle ∷ rest) flat.old.queue.pairs → OnOk result (IsScheduledBut flat.new.grove rest flat.new.queue.pairs) }
    ensures births { OnOk result (flat.new.grove.next_birth ≡ flat.old.grove.next_birth) }
    ensures longer { OnOk result (length flat.new.queue.pairs ≤ length flat.old.queue.pairs + 1) }
    ensures work { OnOk result (work events.new ≡ work events.old + 1) }
    ensures ticks { looks.new ≤ looks.old + 4 }
{
    movers_take_their_steps();
    let Mover {
        handle,
        path,
        model: _,
        got,
    } = mover;
    component_moves(
        alloc,
        program,
        &mut flat.grove,
        &mut flat.queue,
        handle,
        kind,
        path,
        time,
        got,
        events,
        looks,
    )
}

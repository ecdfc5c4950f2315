//! One of those who move.

ghost use Rattle.std.specs.Prelude.{◌≡◌, ◌+◌, ◌<◌, ◌≤◌, ◌^◌, ◌*◌, ◌∷◌, length, List, OnOk};
ghost use Rattle.dsde_bank.specs.declared.handle.Handle.{Handle};
ghost use Rattle.dsde_values.specs.Path.{root};
ghost use Rattle.dsde_values.specs.When.{IsMoment};
ghost use Rattle.dsde_sim_starting.specs.given.system.Program.{system};
ghost use Rattle.dsde_sim_tree.specs.Told.{Tells};
ghost use Rattle.dsde_sim_tree.specs.Tree.{parts};
ghost use Rattle.dsde_sim_tree.specs.declared.step.TheConstants.{MOST_PARTS};
ghost use Rattle.dsde_sim_movers.specs.Movers.{move_one};
ghost use Rattle.dsde_sim_movers.specs.Work.{entries_one, work};
ghost use Rattle.dsde_core_moves.specs.given.core_flat.Scheduled.{IsScheduledBut};
ghost use Rattle.dsde_core_moves.specs.Flat.{delivery_of, tree_of, IsThere, Stands};
ghost use Rattle.dsde_core_moves.specs.declared.flat.Mover.{Mover as AMover};
ghost use Rattle.dsde_core_moving.specs.Restructured.{with_room};
ghost use Rattle.dsde_core_moves.specs.Movers.{FitsMover, Spares};
ghost use Rattle.dsde_core_moving.specs.Moving.{most_births, IsCalled};

use crate::executive_steps;
use dsde_base::Steps;
use dsde_core_moves::given::core_flat::leaf_at;
use dsde_core_moves::{Flat, Mover, component_steps, kind_of};
use dsde_sim_movers::executives_take_structures;
use dsde_sim_starting::given::program::Program;
use dsde_sim_tree::{Event, TurnEnd};
use dsde_values::Seq;
use std::alloc::Global;
use std::sync::ledger::Ledger;

/// A component or an executive that is due, or to which something comes, takes its step where it lies, with this
/// room for parts. Gives the room that is left. A fault ends it, or `Memory` where there is none: then nothing
/// stands.
pub(crate) fn mover_steps<L: Ledger, M: Ledger>(
    alloc: Global,
    program: &Program,
    flat: &mut Flat,
    mover: Mover,
    time: u64,
    room: u64,
    events: &mut Seq<Event>,
    looks: &mut Steps<L>,
    changes: &mut Steps<M>,
) -> Result<u64, TurnEnd>
    requires moment { IsMoment time }
    requires stands { Stands program.now flat.old }
    requires there { IsThere flat.old mover }
    requires called { IsCalled flat.old time mover }
    requires fits { FitsMover program.now flat.old mover }
    requires room { parts (tree_of flat.old) + room ≤ MOST_PARTS }
    requires births { flat.old.grove.next_birth + 2 ^ 18 < 2 ^ 64 }
    ensures told { Tells (move_one (system program.now) root time (delivery_of mover) (tree_of flat.old) room) events.old events.new (with_room flat.new result) }
    ensures stands { OnOk result (Stands program.now flat.new) }
    ensures others { OnOk result ((other : AMover) → Spares mover other → IsThere flat.old other → IsThere flat.new other) }
    ensures waits { (rest : List Handle) → IsScheduledBut flat.old.grove (mover.handle ∷ rest) flat.old.queue.pairs → OnOk result (IsScheduledBut flat.new.grove rest flat.new.queue.pairs) }
    ensures births { OnOk result (flat.new.grove.next_birth ≤ flat.old.grove.next_birth + most_births mover) }
    ensures some { OnOk result (work events.old + 1 ≤ work events.new) }
    ensures work { OnOk result (looks.new + 4 * length flat.new.queue.pairs + 16 * work events.old ≤ looks.old + 4 * length flat.old.queue.pairs + 16 * work events.new + 4 * entries_one (system program.now) root time (delivery_of mover) (tree_of flat.old)) }
{
    executives_take_structures();
    let Some(leaf) = leaf_at(&flat.grove, mover.handle, looks) else {
        unreachable!();
    };
    let is_boss = leaf.boss;
    let Some(kind) = kind_of(leaf, time, mover.got.as_slice()) else {
        unreachable!();
    };
    if is_boss {
        return executive_steps(
            alloc, program, flat, mover, kind, time, room, events, looks, changes,
        );
    }
    component_steps(alloc, program, flat, mover, kind, time, events, looks)?;
    Ok(room)
}

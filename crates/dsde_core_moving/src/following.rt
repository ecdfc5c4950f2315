//! The structure of a network follows the state of its executive.

ghost use Rattle.std.specs.Prelude.{◌≡◌, ◌+◌, ◌*◌, ◌<◌, ◌≤◌, ◌^◌, ◌∷◌, [], true, length, List, Ok, Some, IsSome, IfOk, OnOk};
ghost use Rattle.dsde_bank.specs.declared.handle.Handle.{Handle as AHandle};
ghost use Rattle.dsde_values.specs.When.{IsMoment};
ghost use Rattle.dsde_sim_starting.specs.given.executive.Structure.{IsPlan};
ghost use Rattle.dsde_structure.specs.declared.plan.Plan.{Plan as APlan};
ghost use Rattle.dsde_sim_starting.specs.given.system.Fitting.{FitsLeaf};
ghost use Rattle.dsde_sim_starting.specs.given.system.Program.{system};
ghost use Rattle.dsde_sim_tree.specs.Told.{Comes, Tells};
ghost use Rattle.dsde_grove.specs.Grove.{value_of};
ghost use Rattle.dsde_sim_tree.specs.declared.sim.Sim.TheViews.{out-Net};
ghost use Rattle.dsde_sim_tree.specs.Move.{gone};
ghost use Rattle.dsde_sim_tree.specs.Start.{structure_of};
ghost use Rattle.dsde_sim_tree.specs.Tree.{parts, parts_of_kids};
ghost use Rattle.dsde_sim_movers.specs.Work.{work};
ghost use Rattle.dsde_routes_wiring.specs.declared.wiring.Wiring.{Wiring};
ghost use Rattle.dsde_routes_wiring.specs.declared.wiring.WiredKid.TheViews.{out-Wiring};
ghost use Rattle.dsde_routes_wiring.specs.Places.{nets_at};
ghost use Rattle.dsde_routes_wiring.specs.Routes.{routes};
ghost use Rattle.dsde_routes_wiring.specs.Touched.{handles_of, is_touched};
ghost use Rattle.dsde_repair_walks.specs.Bounds.{count};
ghost use Rattle.dsde_core_moves.specs.given.core_flat.Scheduled.{held_leaf, IsScheduledBut};
ghost use Rattle.dsde_core_moves.specs.given.core_flat.Shown.{leaf_in};
ghost use Rattle.dsde_core_moves.specs.given.core_flat.Stands.{ChangesBeneath};
ghost use Rattle.dsde_core_moves.specs.Flat.{tree_of, Stands};
ghost use Rattle.dsde_core_moving.specs.Restructured.{with_room};
ghost use Rattle.dsde_core_moving.specs.Executive.{followed, IsExecutiveAt};

use crate::place::place_in;
use crate::restructure;
use dsde_bank::Handle;
use dsde_base::Steps;
use dsde_core_moves::Flat;
use dsde_core_moves::given::core_flat::{Spot, leaf_at};
use dsde_grove::Grove;
use dsde_sim_starting::given::program::Program;
use dsde_sim_starting::structure_of;
use dsde_sim_tree::{Event, TurnEnd};
use dsde_structure::Plan;
use dsde_values::{Path, Seq};
use std::alloc::Global;
use std::sync::ledger::Ledger;

/// The structure that goes with the state of the executive under a handle, of the network at this path. Counts
/// at most 2 looks.
fn structure_here<L: Ledger>(
    alloc: Global,
    program: &Program,
    grove: &Grove<Spot>,
    handle: Handle,
    path: &Path,
    looks: &mut Steps<L>,
) -> Result<Plan, TurnEnd>
    requires live { IsSome (held_leaf (value_of grove.now handle)) }
    requires fits { FitsLeaf program.now (leaf_in (value_of grove.now handle)) }
    requires network { (system program.now).is_network (leaf_in (value_of grove.now handle)).model ≡ true }
    ensures comes { Comes (structure_of (system program.now) (leaf_in (value_of grove.now handle)).model (leaf_in (value_of grove.now handle)).args (leaf_in (value_of grove.now handle)) path.now) result }
    ensures fits { IfOk result (λ plan. IsPlan program.now (leaf_in (value_of grove.now handle)).model.0 plan) }
    ensures ticks { looks.new ≤ looks.old + 2 }
{
    let Some(leaf) = leaf_at(grove, handle, looks) else {
        unreachable!();
    };
    structure_of(alloc, program, leaf.model, &leaf.args, leaf, path)
}

/// The executive under a handle has moved, that of the network at this path: the network gets the structure of
/// its new state, which is told. Gives the room that is left. All else stays as it is. Counts at most 2 looks
/// for each component and each entry and 2 more, 6 for each part that leaves and 4 for each that comes, which
/// has a birth of its own; and a change for each route that the change of the network touches, before and
/// after it. A fault ends it, or `Memory` where there is none: then nothing stands.
pub(crate) fn structure_follows<L: Ledger, M: Ledger>(
    alloc: Global,
    program: &Program,
    flat: &mut Flat,
    handle: Handle,
    path: &Path,
    time: u64,
    room: u64,
    events: &mut Seq<Event>,
    looks: &mut Steps<L>,
    changes: &mut Steps<M>,
) -> Result<u64, TurnEnd>
    requires moment { IsMoment time }
    requires stands { Stands program.now flat.old }
    requires executive { IsExecutiveAt flat.old handle path.now }
    requires births { flat.old.grove.next_birth + room + parts (tree_of flat.old) < 2 ^ 64 }
    ensures told { (own : IsExecutiveAt flat.old handle path.now) → Tells (followed (system program.now) (tree_of flat.old) own.place path.now own.net time room) events.old events.new (with_room flat.new result) }
    ensures stands { OnOk result (Stands program.now flat.new) }
    ensures beneath { OnOk result (ChangesBeneath path.now.names flat.old.grove flat.new.grove) }
    ensures waits { (waiting : List AHandle) → IsScheduledBut flat.old.grove waiting flat.old.queue.pairs → OnOk result (IsScheduledBut flat.new.grove waiting flat.new.queue.pairs) }
    ensures births { OnOk result (flat.new.grove.next_birth ≤ flat.old.grove.next_birth + room + parts (tree_of flat.old)) }
    ensures ticks { (own : IsExecutiveAt flat.old handle path.now) (plan : APlan) → structure_of (system program.now) (out-Net own.net).model (out-Net own.net).args (out-Net own.net).boss path.now ≡ Ok plan →
        OnOk result (looks.new + 4 * flat.old.grove.next_birth ≤ looks.old + 2 + 2 * length (out-Net own.net).kids + 2 * length plan.entries + 6 * parts_of_kids (gone plan.entries (out-Net own.net).kids) + 4 * flat.new.grove.next_birth) }
    ensures grows { OnOk result (work events.old ≤ work events.new) }
    ensures work { (own : IsExecutiveAt flat.old handle path.now) (plan : APlan) → structure_of (system program.now) (out-Net own.net).model (out-Net own.net).args (out-Net own.net).boss path.now ≡ Ok plan →
        OnOk result (looks.new + 4 * length flat.new.queue.pairs + 16 * work events.old ≤ looks.old + 2 + 4 * length flat.old.queue.pairs + 16 * work events.new + 4 * length plan.entries) }
    ensures touches { (own : IsExecutiveAt flat.old handle path.now) (before after net : Wiring) → flat.old.wiring ≡ Some before → nets_at own.place before ≡ net ∷ [] →
        OnOk result (flat.new.wiring ≡ Some after → changes.new ≡ changes.old + count (is_touched (out-Wiring net).me (handles_of after)) (routes before) + count (is_touched (out-Wiring net).me (handles_of before)) (routes after)) }
{
    let plan = structure_here(alloc, program, &flat.grove, handle, path, looks)?;
    restructure(
        alloc,
        program,
        flat,
        place_in(path),
        path,
        plan,
        time,
        room,
        events,
        looks,
        changes,
    )
}

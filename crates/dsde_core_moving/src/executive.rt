//! An executive moves.

ghost use Rattle.std.specs.Prelude.{◌≡◌, ◌+◌, ◌*◌, ◌<◌, ◌≤◌, ◌^◌, ◌∷◌, [], false, length, List, Ok, Some, OnOk};
ghost use Rattle.dsde_bank.specs.declared.handle.Handle.{Handle};
ghost use Rattle.dsde_values.specs.Path.{root};
ghost use Rattle.dsde_values.specs.When.{IsMoment};
ghost use Rattle.dsde_sim_tree.specs.given.formalism.leaf_Leaf.{Leaf};
ghost use Rattle.dsde_sim_tree.specs.given.formalism.Leaf.{kind_of};
ghost use Rattle.dsde_structure.specs.declared.plan.Plan.{Plan};
ghost use Rattle.dsde_sim_starting.specs.given.system.Fitting.{FitsInputs};
ghost use Rattle.dsde_sim_starting.specs.given.system.Program.{system};
ghost use Rattle.dsde_sim_tree.specs.Told.{Tells};
ghost use Rattle.dsde_grove.specs.Grove.{value_of};
ghost use Rattle.dsde_sim_tree.specs.declared.sim.Net.{Net};
ghost use Rattle.dsde_sim_tree.specs.declared.sim.Sim.TheVariants as sim;
ghost use Rattle.dsde_sim_tree.specs.declared.sim.Sim.TheViews.{out-Net};
ghost use Rattle.dsde_sim_tree.specs.Move.{gone, take_move};
ghost use Rattle.dsde_sim_tree.specs.Start.{structure_of};
ghost use Rattle.dsde_sim_tree.specs.Tree.{parts, parts_of_kids};
ghost use Rattle.dsde_sim_movers.specs.Movers.{move_one, path_behind};
ghost use Rattle.dsde_sim_movers.specs.Parts.{part_at};
ghost use Rattle.dsde_sim_movers.specs.Orders.{is_above};
ghost use Rattle.dsde_sim_movers.specs.Work.{work};
ghost use Rattle.dsde_routes_wiring.specs.declared.wiring.Wiring.{Wiring};
ghost use Rattle.dsde_routes_wiring.specs.declared.wiring.WiredKid.TheViews.{out-Wiring};
ghost use Rattle.dsde_routes_wiring.specs.Places.{nets_at};
ghost use Rattle.dsde_routes_wiring.specs.Routes.{routes};
ghost use Rattle.dsde_routes_wiring.specs.Touched.{handles_of, is_touched};
ghost use Rattle.dsde_repair_walks.specs.Bounds.{count};
ghost use Rattle.dsde_core_moves.specs.given.core_flat.Scheduled.{IsScheduledBut};
ghost use Rattle.dsde_core_moves.specs.Flat.{delivery_of, leaf_of, tree_of, IsThere, Stands};
ghost use Rattle.dsde_core_moves.specs.declared.flat.Mover.{Mover as AMover};
ghost use Rattle.dsde_core_moving.specs.Restructured.{with_room};
ghost use Rattle.dsde_core_moving.specs.Executive.{place_of, IsExecutive};

use crate::following::structure_follows;
use crate::place::network_of;
use dsde_base::Steps;
use dsde_core_moves::given::sim_moving::copy_path;
use dsde_core_moves::{Flat, Mover, component_moves};
use dsde_sim_movers::movers_take_their_steps;
use dsde_sim_starting::given::program::Program;
use dsde_sim_tree::given::formalism::MoveKind;
use dsde_sim_tree::{Event, TurnEnd};
use dsde_values::Seq;
use std::alloc::Global;
use std::sync::ledger::Ledger;

/// An executive takes this transition with what it received, where it lies, and its network gets the structure
/// of its new state: its step in the tree, with this room. Gives the room that is left. The executive's next
/// event is scheduled, and it waits no longer; whoever is not beneath its network is where it was, as it was.
/// At most as many parts are born as there were, and as the room takes. Counts at most 6 looks, 2 more for each
/// component of the network and each entry of its new structure, 6 for each part that leaves and 4 for each
/// that comes; and a change for each route that the change of the network touches, before and after it. A fault
/// ends it, or `Memory` where there is none: then nothing stands.
pub fn executive_steps<L: Ledger, M: Ledger>(
    alloc: Global,
    program: &Program,
    flat: &mut Flat,
    mover: Mover,
    kind: MoveKind,
    time: u64,
    room: u64,
    events: &mut Seq<Event>,
    looks: &mut Steps<L>,
    changes: &mut Steps<M>,
) -> Result<u64, TurnEnd>
    requires moment { IsMoment time }
    requires stands { Stands program.now flat.old }
    requires there { IsThere flat.old mover }
    requires executive { IsExecutive flat.old mover }
    requires kind { kind_of (leaf_of flat.old mover) time mover.got ≡ Some kind }
    requires got { FitsInputs program.now (leaf_of flat.old mover).model.0 mover.got }
    requires few { length mover.got < 2 ^ 32 }
    requires births { flat.old.grove.next_birth + room + parts (tree_of flat.old) < 2 ^ 64 }
    ensures told { Tells (move_one (system program.now) root time (delivery_of mover) (tree_of flat.old) room) events.old events.new (with_room flat.new result) }
    ensures stands { OnOk result (Stands program.now flat.new) }
    ensures others { OnOk result ((other : AMover) → is_above root (delivery_of mover) (delivery_of other) ≡ false → IsThere flat.old other → IsThere flat.new other) }
    ensures kept { OnOk result ((other : AMover) → is_above root (delivery_of mover) (delivery_of other) ≡ false → IsThere flat.old other → value_of flat.new.grove other.handle ≡ value_of flat.old.grove other.handle) }
    ensures waits { (rest : List Handle) → IsScheduledBut flat.old.grove (mover.handle ∷ rest) flat.old.queue.pairs → OnOk result (IsScheduledBut flat.new.grove rest flat.new.queue.pairs) }
    ensures births { OnOk result (flat.new.grove.next_birth ≤ flat.old.grove.next_birth + room + parts (tree_of flat.old)) }
    ensures ticks { (net : Net) (moved : Leaf) (plan : Plan) → part_at (place_of mover) (tree_of flat.old) ≡ Some (sim.Net net) → (take_move (system program.now) (leaf_of flat.old mover) kind mover.path time mover.got).end ≡ Ok moved →
        structure_of (system program.now) (out-Net net).model (out-Net net).args moved (path_behind root (place_of mover)) ≡ Ok plan →
        OnOk result (looks.new + 4 * flat.old.grove.next_birth ≤ looks.old + 6 + 2 * length (out-Net net).kids + 2 * length plan.entries + 6 * parts_of_kids (gone plan.entries (out-Net net).kids) + 4 * flat.new.grove.next_birth) }
    ensures some { OnOk result (work events.old + 1 ≤ work events.new) }
    ensures work { (net : Net) (moved : Leaf) (plan : Plan) → part_at (place_of mover) (tree_of flat.old) ≡ Some (sim.Net net) → (take_move (system program.now) (leaf_of flat.old mover) kind mover.path time mover.got).end ≡ Ok moved →
        structure_of (system program.now) (out-Net net).model (out-Net net).args moved (path_behind root (place_of mover)) ≡ Ok plan →
        OnOk result (looks.new + 6 + 4 * length flat.new.queue.pairs + 16 * work events.old ≤ looks.old + 4 * length flat.old.queue.pairs + 16 * work events.new + 4 * length plan.entries) }
    ensures touches { (before after net : Wiring) → flat.old.wiring ≡ Some before → nets_at (place_of mover) before ≡ net ∷ [] →
        OnOk result (flat.new.wiring ≡ Some after → changes.new ≡ changes.old + count (is_touched (out-Wiring net).me (handles_of after)) (routes before) + count (is_touched (out-Wiring net).me (handles_of before)) (routes after)) }
{
    movers_take_their_steps();
    let Mover {
        handle,
        path,
        model: _,
        got,
    } = mover;
    let network = network_of(copy_path(alloc, &path)?);
    component_moves(
        alloc,
        program,
        &mut flat.grove,
        &mut flat.queue,
        handle,
        kind,
        path,
        time,
        got,
        events,
        looks,
    )?;
    structure_follows(
        alloc, program, flat, handle, &network, time, room, events, looks, changes,
    )
}

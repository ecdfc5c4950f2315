//! A network changes its structure where it lies.
ghost use Rattle.std.specs.Prelude.{◌≡◌, ◌+◌, ◌*◌, ◌<◌, ◌≤◌, ◌^◌, List, [], ◌∷◌, length, Some, IfOk, OnOk};
ghost use Rattle.dsde_bank.specs.declared.handle.Handle.{Handle};
ghost use Rattle.dsde_values.specs.Path.{root};
ghost use Rattle.dsde_values.specs.When.{IsMoment};
ghost use Rattle.dsde_sim_starting.specs.given.executive.Structure.{IsPlan};
ghost use Rattle.dsde_sim_tree.specs.Told.{Tells};
ghost use Rattle.dsde_sim_starting.specs.given.system.Program.{system};
ghost use Rattle.dsde_sim_tree.specs.declared.sim.Net.{Net};
ghost use Rattle.dsde_sim_tree.specs.declared.sim.Sim.TheVariants as sim;
ghost use Rattle.dsde_sim_tree.specs.declared.sim.Sim.TheViews.{out-Net};
ghost use Rattle.dsde_sim_tree.specs.Move.{gone};
ghost use Rattle.dsde_sim_tree.specs.Tree.{parts, parts_of_kids};
ghost use Rattle.dsde_sim_movers.specs.Movers.{path_behind};
ghost use Rattle.dsde_sim_movers.specs.Parts.{part_at};
ghost use Rattle.dsde_sim_movers.specs.Work.{work};
ghost use Rattle.dsde_routes_wiring.specs.declared.wiring.Wiring.{Wiring};
ghost use Rattle.dsde_routes_wiring.specs.declared.wiring.WiredKid.TheViews.{out-Wiring};
ghost use Rattle.dsde_routes_wiring.specs.Places.{nets_at};
ghost use Rattle.dsde_routes_wiring.specs.Routes.{routes};
ghost use Rattle.dsde_routes_wiring.specs.Touched.{handles_of, is_touched};
ghost use Rattle.dsde_repair_walks.specs.Bounds.{count};
ghost use Rattle.dsde_core_moves.specs.given.core_flat.Scheduled.{IsScheduledBut};
ghost use Rattle.dsde_core_moves.specs.given.core_flat.Stands.{ChangesBeneath};
ghost use Rattle.dsde_core_moves.specs.Flat.{tree_of, Stands};
ghost use Rattle.dsde_core_moving.specs.Restructured.{restructured, with_room};

use crate::{Changed, change, fitting_trees_are_wired, handles_are_apart, wirings_change_alike};
use dsde_base::Steps;
use dsde_core_moves::Flat;
use dsde_repair::{net_at, repair};
use dsde_routes_wiring::Links;
use dsde_sim_starting::given::program::Program;
use dsde_sim_tree::{Event, TurnEnd};
use dsde_structure::{Plan, survivors_keep_their_roles};
use dsde_values::{Name, Path, Seq};
use std::alloc::Global;
use std::sync::ledger::Ledger;

/// The network at a place, with its path, gets the components and the links of a plan, which is told: what
/// does not survive leaves with all beneath it, which gives its parts back to the room, and what is fresh
/// starts. The wiring, its rows and the schedule go with it; all else stays as it is. Gives the room that is
/// left. Counts at most 2 looks for each component and each entry, 6 for each part that leaves and 4 for each
/// that comes, which has a birth of its own; and a change for each route that the change of the network
/// touches, before and after it. A fault ends it, or `Memory` where there is none: then nothing stands.
pub fn restructure<L: Ledger, M: Ledger>(
    alloc: Global,
    program: &Program,
    flat: &mut Flat,
    place: &[Name],
    path: &Path,
    plan: Plan,
    time: u64,
    room: u64,
    events: &mut Seq<Event>,
    looks: &mut Steps<L>,
    changes: &mut Steps<M>,
) -> Result<u64, TurnEnd>
    requires moment { IsMoment time }
    requires stands { Stands program.now flat.old }
    requires path { path.now ≡ path_behind root place.now }
    requires there { (net : Net) × (part_at place.now (tree_of flat.old) ≡ Some (sim.Net net)) }
    requires plan { (net : Net) → part_at place.now (tree_of flat.old) ≡ Some (sim.Net net) → IsPlan program.now (out-Net net).model.0 plan }
    requires births { flat.old.grove.next_birth + room + parts (tree_of flat.old) < 2 ^ 64 }
    ensures told { (net : Net) → part_at place.now (tree_of flat.old) ≡ Some (sim.Net net) →
        Tells (restructured (system program.now) (tree_of flat.old) place.now path.now net time room plan) events.old events.new (with_room flat.new result) }
    ensures stands { OnOk result (Stands program.now flat.new) }
    ensures beneath { OnOk result (ChangesBeneath path.now.names flat.old.grove flat.new.grove) }
    ensures waits { (waiting : List Handle) → IsScheduledBut flat.old.grove waiting flat.old.queue.pairs → OnOk result (IsScheduledBut flat.new.grove waiting flat.new.queue.pairs) }
    ensures born { (net : Net) → part_at place.now (tree_of flat.old) ≡ Some (sim.Net net) →
        IfOk result (λ rest. flat.new.grove.next_birth + rest ≡ flat.old.grove.next_birth + room + parts_of_kids (gone plan.entries (out-Net net).kids)) }
    ensures work { OnOk result (looks.new + 4 * length flat.new.queue.pairs + 16 * work events.old ≤ looks.old + 4 * length flat.old.queue.pairs + 16 * work events.new + 4 * length plan.entries) }
    ensures ticks { (net : Net) → part_at place.now (tree_of flat.old) ≡ Some (sim.Net net) →
        OnOk result (looks.new + 4 * flat.old.grove.next_birth ≤ looks.old + 2 * length (out-Net net).kids + 2 * length plan.entries + 6 * parts_of_kids (gone plan.entries (out-Net net).kids) + 4 * flat.new.grove.next_birth) }
    ensures touches { (before after net : Wiring) → flat.old.wiring ≡ Some before → nets_at place.now before ≡ net ∷ [] →
        OnOk result (flat.new.wiring ≡ Some after → changes.new ≡ changes.old + count (is_touched (out-Wiring net).me (handles_of after)) (routes before) + count (is_touched (out-Wiring net).me (handles_of before)) (routes after)) }
{
    fitting_trees_are_wired();
    handles_are_apart();
    wirings_change_alike();
    survivors_keep_their_roles();
    let Plan { entries, links } = plan;
    let links = Links::of(alloc, links)?;
    let Some(mut whole) = flat.wiring.take() else {
        unreachable!();
    };
    let Some(net) = net_at(&whole, place) else {
        unreachable!();
    };
    let changed = change(
        alloc,
        program,
        &mut flat.grove,
        &mut flat.queue,
        net,
        entries,
        path,
        time,
        room,
        events,
        looks,
    )?;
    let Changed {
        gone,
        fresh,
        room: rest,
    } = changed;
    repair(
        alloc,
        &mut flat.rows,
        &mut whole,
        place,
        gone.as_slice(),
        fresh,
        links,
        changes,
    )?;
    flat.wiring = Some(whole);
    Ok(rest)
}

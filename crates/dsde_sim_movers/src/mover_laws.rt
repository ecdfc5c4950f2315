//! What the definitions of a move and of a turn are, mover by mover. Each law is a call that does nothing.

ghost use Rattle.std.specs.Prelude.{◌≡◌, ◌≤◌, ◌+◌, ◌*◌, ◌↔◌, ℕ, length, true, false, List, Ok, Some, [], filter, map};
ghost use Rattle.std.specs.List.{AllByRecursion, Contains};
ghost use Rattle.dsde_values.specs.declared.arrival.Item.{Item};
ghost use Rattle.dsde_values.specs.declared.name.Name.{Name};
ghost use Rattle.dsde_values.specs.declared.path.Path.{Path};
ghost use Rattle.dsde_sim_tree.specs.given.formalism.leaf_Leaf.{Leaf};
ghost use Rattle.dsde_sim_tree.specs.given.formalism.leaf_MoveKind.{MoveKind};
ghost use Rattle.dsde_sim_tree.specs.given.formalism.Leaf.{kind_of};
ghost use Rattle.dsde_sim_movers.specs.Places.{leaves_from, paths_from};
ghost use Rattle.dsde_sim_movers.specs.Asking.{IsNext, ending, ask_each, due_ones, seated};
ghost use Rattle.dsde_sim_movers.specs.Changes.{changed_as};
ghost use Rattle.dsde_sim_movers.specs.Found.{IsFound, Moves};
ghost use Rattle.dsde_values.specs.Path.{root};
ghost use Rattle.dsde_values.specs.declared.value.Value.{Value};
ghost use Rattle.dsde_sim_tree.specs.given.language.ids_ModelId.{ModelId};
ghost use Rattle.dsde_sim_tree.specs.given.structure.plan_Entry.{Entry};
ghost use Rattle.dsde_sim_tree.specs.given.structure.plan_Link.{Link};
ghost use Rattle.dsde_sim_tree.specs.given.structure.Survival.{IsInOrder, compared};
ghost use Rattle.dsde_sim_tree.specs.Told.{told, ◌then◌};
ghost use Rattle.dsde_sim_tree.specs.declared.sim.Kid.{Kid};
ghost use Rattle.dsde_sim_tree.specs.declared.sim.Net.{Net};
ghost use Rattle.dsde_sim_tree.specs.declared.sim.Sim.TheViews.{out-Net};
ghost use Rattle.dsde_sim_tree.specs.Start.{net_of, start};
ghost use Rattle.dsde_sim_movers.specs.Parts.{are_apart, part_at, with_part};
ghost use Rattle.dsde_sim_tree.specs.given.formalism.System.{Ports, System};
ghost use Rattle.dsde_sim_tree.specs.declared.sim.Sim.{Sim};
ghost use Rattle.dsde_sim_tree.specs.Output.{by_port, output};
ghost use Rattle.dsde_sim_tree.specs.Tree.{entry_of, next_time, parts, parts_of_kids};
ghost use Rattle.dsde_sim_tree.specs.Move.{boss_moves, change, gone, ins_of, move, move_leaf_at, take_move};
ghost use Rattle.dsde_sim_tree.specs.declared.step.TheConstants.{MOST_PARTS};
ghost use Rattle.dsde_sim_tree.specs.Turn.{turn};
ghost use Rattle.dsde_sim_movers.specs.Deliveries.{Delivery, deliveries};
ghost use Rattle.dsde_sim_movers.specs.Names.{IsNamed, NamesParts};
ghost use Rattle.dsde_sim_movers.specs.Movers.{leaf_at, move_at, move_each, move_one, movers, path_behind, seat_behind, seat_of, AreInPathOrder};
ghost use Rattle.dsde_sim_movers.specs.Turns.{turn_movers, free_turn};
ghost use Rattle.dsde_sim_movers.specs.Work.{entries_one, work, TakesStructure};
ghost use Rattle.dsde_sim_tree.specs.declared.sim.Sim.TheVariants as sim;

use crate::leaves_have_deliveries;
use dsde_values::{one_name, orders_are_total};

/// Where the output message has no fault, what stands at a path moves as its movers do, one after
/// another in their order.
pub fn parts_move_one_by_one()
    ensures { (system : System) (tree : Sim) (path : Path) (time : ℕ) (got sent : Ports) (room : ℕ) → IsNamed tree → output system tree path time ≡ Ok sent →
        move system tree path time got room ≡ move_each system path time (movers system tree path time got) tree room }
{
    orders_are_total();
}

/// A turn is its movers, one after another in path order.
pub fn turns_move_one_by_one()
    ensures { (system : System) (tree : Sim) (number time : ℕ) (items : List Item) → IsNamed tree →
        turn system tree number time items ≡ free_turn system tree number time items (turn_movers system tree time items) }
{
    parts_move_one_by_one();
}

/// The movers stand in path order: the components of a network by their names, and then its
/// executive.
pub fn movers_stand_in_path_order()
    ensures { (system : System) (tree : Sim) (path : Path) (time : ℕ) (got : Ports) → IsNamed tree → AreInPathOrder (movers system tree path time got) }
{
    orders_are_total();
}

/// The output message ends as asking does of each component and each executive that is due, one after
/// another in path order.
pub fn outputs_are_asked()
    ensures { (system : System) (tree : Sim) (path : Path) (time : ℕ) → ending (output system tree path time) ≡ ask_each system time (due_ones time (seated tree path)) }
{}

/// A tree has as many parts as paths, and it is due when the first of its components and executives is.
pub fn trees_are_measured()
    ensures parts { (tree : Sim) (path : Path) → length (paths_from tree path) ≡ parts tree }
    ensures next { (tree : Sim) (path : Path) → IsNext (next_time tree) (seated tree path) }
{}

/// Each delivery of a turn is what the links of the tree carry to the component or the executive at its
/// path.
pub fn deliveries_are_found()
    ensures { (system : System) (tree : Sim) (time : ℕ) (items : List Item) → IsNamed tree →
        AllByRecursion (IsFound system tree time (by_port (ins_of system tree) items)) (deliveries system tree root time (by_port (ins_of system tree) items)) }
{
    orders_are_total();
}

/// The path of whoever stands in a tree is among those of its components and executives.
pub fn leaves_have_paths()
    ensures { (tree : Sim) (path : Path) (names : List Name) (leaf : Leaf) → leaf_at (seat_of names) tree ≡ Some leaf → Contains (leaves_from tree path) (path_behind path names) }
{
    one_name();
}

/// Where the output message has no fault, a list in path order is that of a turn's movers if it has each
/// component and each executive that is due or to which something comes, and no others.
pub fn movers_are_those()
    ensures { (system : System) (tree : Sim) (time : ℕ) (items : List Item) (sent : Ports) (list : List Delivery) → IsNamed tree → output system tree root time ≡ Ok sent → AreInPathOrder list →
        ((own : Delivery) → Contains list own ↔ Moves system tree time (by_port (ins_of system tree) items) own) → list ≡ turn_movers system tree time items }
{
    deliveries_are_found();
    leaves_have_deliveries();
    leaves_have_paths();
    movers_stand_in_path_order();
    orders_are_total();
}

/// Where each structure of a system names its components, so does each tree that starts, and a turn
/// in any order of movers leaves names in order.
pub fn trees_are_named()
    ensures start { (system : System) (left : ℕ) (model : ModelId) (args : List Value) (path : Path) (time room rest : ℕ) (tree : Sim) → NamesParts system →
        (start system left model args path time room).end ≡ Ok (tree, rest) → IsNamed tree }
    ensures turn { (system : System) (tree after : Sim) (number time : ℕ) (items : List Item) (order : List Delivery) → NamesParts system → IsNamed tree →
        (free_turn system tree number time items order).end ≡ Ok after → IsNamed after }
{
    one_name();
}

/// What a mover does to the tree: a component takes its transition where it stands; an executive takes
/// its own, and the structure of its network follows.
pub fn movers_take_their_steps()
    ensures component { (system : System) (path : Path) (time : ℕ) (names : List Name) (got : Ports) (tree : Sim) (room : ℕ) (leaf : Leaf) →
        leaf_at (record { names = names; is_boss = false }) tree ≡ Some leaf →
        move_at system path time (record { names = names; is_boss = false }) got tree room
        ≡ (move_leaf_at system leaf (path_behind path names) time got then (λ after. told [] (with_part names (sim.Leaf after) tree, room))) }
    ensures executive { (system : System) (path : Path) (time : ℕ) (names : List Name) (got : Ports) (tree : Sim) (room : ℕ) (model : ModelId) (args : List Value) (boss : Leaf) (kids : List Kid) (links : List Link) →
        part_at names tree ≡ Some (sim.Net (net_of model args boss kids links)) →
        move_at system path time (record { names = names; is_boss = true }) got tree room
        ≡ (boss_moves system model args boss links kids (path_behind path names) time got room then (λ after. told [] (with_part names (sim.Net after.0) tree, after.1))) }
{}

/// Parts at places that are apart are replaced in either order, and one stays where the other is
/// replaced; where there is a part, what is put in its place stands there.
pub fn places_are_apart()
    ensures stays { (names others : List Name) (own tree : Sim) → are_apart names others ≡ true → part_at others (with_part names own tree) ≡ part_at others tree }
    ensures either { (names others : List Name) (own part tree : Sim) → are_apart names others ≡ true → with_part names own (with_part others part tree) ≡ with_part others part (with_part names own tree) }
    ensures itself { (names : List Name) (own part tree : Sim) → part_at names tree ≡ Some part → part_at names (with_part names own tree) ≡ Some own }
{
    orders_are_total();
    one_name();
}

/// Of the parts of a tree at most every second is an executive that moves.
pub fn executives_are_few()
    ensures { (system : System) (tree : Sim) (path : Path) (time : ℕ) (got : Ports) → IsNamed tree →
        2 * length (filter (λ own. (seat_behind path own.path).is_boss) (movers system tree path time got)) ≤ parts tree }
{}

/// Movers take no more room than there is, in any order: with the room that is left a tree has at most the
/// parts and the room that there were, and after a turn no more parts than may be alive.
pub fn room_is_kept()
    ensures movers { (system : System) (tree after : Sim) (path : Path) (time : ℕ) (order : List Delivery) (room left : ℕ) →
        (move_each system path time order tree room).end ≡ Ok (after, left) → parts after + left ≤ parts tree + room }
    ensures turn { (system : System) (tree after : Sim) (number time : ℕ) (items : List Item) (order : List Delivery) → parts tree ≤ MOST_PARTS →
        (free_turn system tree number time items order).end ≡ Ok after → parts after ≤ MOST_PARTS }
    ensures start { (system : System) (left : ℕ) (model : ModelId) (args : List Value) (path : Path) (time room rest : ℕ) (tree : Sim) →
        (start system left model args path time room).end ≡ Ok (tree, rest) → parts tree + rest ≤ room }
{}

/// What steps tell is their work: a move is one, a change of structure is one for each part that starts and for each
/// that it drops; and of a network's components there are no more than entries of its new structure and parts that it drops.
pub fn steps_tell_their_work()
    ensures moves { (system : System) (leaf moved : Leaf) (kind : MoveKind) (path : Path) (time : ℕ) (got : Ports) → (take_move system leaf kind path time got).end ≡ Ok moved →
        work (take_move system leaf kind path time got).events ≡ 1 }
    ensures changes { (system : System) (entries : List Entry) (kids after : List Kid) (path : Path) (time room left : ℕ) → (change system entries kids path time room).end ≡ Ok (after, left) →
        work (change system entries kids path time room).events + left ≡ room + 2 * parts_of_kids (gone entries kids) }
    ensures few { (entries : List Entry) (kids : List Kid) → IsInOrder (map entry_of kids) → length kids ≤ length entries + parts_of_kids (gone entries kids) }
{
    orders_are_total();
    one_name();
}

/// An executive that moves has a structure for its new state.
pub fn executives_take_structures()
    ensures { (system : System) (tree after : Sim) (net : Net) (kind : MoveKind) (path : Path) (time : ℕ) (own : Delivery) (room left : ℕ) →
        (seat_behind path own.path).is_boss ≡ true → part_at (seat_behind path own.path).names tree ≡ Some (sim.Net net) → kind_of (out-Net net).boss time own.ports ≡ Some kind →
        (move_one system path time own tree room).end ≡ Ok (after, left) →
        TakesStructure system net kind (path_behind path (seat_behind path own.path).names) time own.ports (entries_one system path time own tree) }
{}

/// A change of a network's structure drops, keeps and starts those components of which the comparison of
/// both structures says so.
pub fn changes_are_compared()
    ensures { (system : System) (entries : List Entry) (kids : List Kid) (path : Path) (time room : ℕ) → IsInOrder entries → IsInOrder (map entry_of kids) →
        change system entries kids path time room ≡ changed_as (compared (map entry_of kids) entries) system entries kids path time room }
{
    orders_are_total();
    one_name();
}

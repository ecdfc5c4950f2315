//! Which orders of movers are lawful, and that it does not matter which is taken. Each law is a call that does nothing.

ghost use Rattle.std.specs.Prelude.{◌≡◌, ◌≤◌, ◌↔◌, ℕ, length, List, ◌∷◌, ◌++◌, map, Ok};
ghost use Rattle.std.specs.List.Sorted.{IsPermutation};
ghost use Rattle.dsde_values.specs.declared.arrival.Item.{Item};
ghost use Rattle.dsde_values.specs.declared.path.Path.{Path};
ghost use Rattle.dsde_drawing.specs.Drawing.{IsOrderly, drawn};
ghost use Rattle.dsde_values.specs.Path.{root};
ghost use Rattle.dsde_sim_tree.specs.given.formalism.leaf_Leaf.{Leaf};
ghost use Rattle.dsde_sim_tree.specs.given.structure.sources_Sources.{Sources};
ghost use Rattle.dsde_sim_tree.specs.declared.sim.Net.{Net};
ghost use Rattle.dsde_sim_tree.specs.declared.sim.Sim.TheVariants as sim;
ghost use Rattle.dsde_sim_tree.specs.declared.sim.Sim.TheViews.{out-Net};
ghost use Rattle.dsde_sim_tree.specs.Output.{kid_output, sources_of};
ghost use Rattle.dsde_sim_movers.specs.Walk.{called_one, net_movers};
ghost use Rattle.dsde_sim_tree.specs.given.formalism.System.{Ports, System};
ghost use Rattle.dsde_sim_tree.specs.declared.sim.Sim.{Sim};
ghost use Rattle.dsde_sim_tree.specs.Turn.{turn};
ghost use Rattle.dsde_sim_movers.specs.Deliveries.{Delivery};
ghost use Rattle.dsde_sim_movers.specs.Names.{IsNamed};
ghost use Rattle.dsde_sim_movers.specs.Movers.{leaf_at, move_each, movers, seat_behind};
ghost use Rattle.dsde_sim_movers.specs.Orders.{IsDrawn, IsLawful, IsOrderOf, is_above};
ghost use Rattle.dsde_sim_movers.specs.Turns.{turn_movers, free_turn};

use crate::turns_move_one_by_one;
use dsde_values::{one_name, orders_are_total};

/// The movers of a component are itself, where it moves; those of a network are the movers of its components in
/// the order of their names, and then its executive, where that moves.
pub fn movers_are_walked()
    ensures leaf { (system : System) (leaf : Leaf) (path : Path) (time : ℕ) (got : Ports) → movers system (sim.Leaf leaf) path time got ≡ called_one leaf path time got }
    ensures net { (system : System) (net : Net) (path : Path) (time : ℕ) (got : Ports) (sources : Sources) → IsNamed (sim.Net net) →
        sources_of system (map (kid_output system) (out-Net net).kids) (out-Net net).boss path time got ≡ Ok sources → movers system (sim.Net net) path time got ≡ net_movers system net path time sources }
{
    orders_are_total();
}

/// Path order is lawful.
pub fn path_order_is_lawful()
    ensures { (system : System) (tree : Sim) (time : ℕ) (items : List Item) → IsNamed tree → IsLawful root (turn_movers system tree time items) }
{
    orders_are_total();
}

/// A component or an executive that moves in a turn is, when its turn comes, as it was before the
/// turn.
pub fn movers_wait()
    ensures { (system : System) (tree after : Sim) (path : Path) (time : ℕ) (got : Ports) (before later : List Delivery) (own : Delivery) (room left : ℕ) → IsNamed tree →
        movers system tree path time got ≡ before ++ own ∷ later → (move_each system path time before tree room).end ≡ Ok (after, left) →
        leaf_at (seat_behind path own.path) after ≡ leaf_at (seat_behind path own.path) tree }
{
    orders_are_total();
    one_name();
}

/// In any lawful order a component or an executive that moves in a turn is, when its turn comes, as it was
/// before the turn.
pub fn lawful_movers_wait()
    ensures { (system : System) (tree after : Sim) (time : ℕ) (items : List Item) (before later : List Delivery) (own : Delivery) (room left : ℕ) → IsNamed tree →
        IsOrderOf (turn_movers system tree time items) (before ++ own ∷ later) → IsLawful root (before ++ own ∷ later) →
        (move_each system root time before tree room).end ≡ Ok (after, left) →
        leaf_at (seat_behind root own.path) after ≡ leaf_at (seat_behind root own.path) tree }
{
    orders_are_total();
    one_name();
}

/// No mover of a turn waits for a later one in path order, and an executive that waits for one waits for all
/// between: those beneath a network stand side by side before its executive.
pub fn movers_are_orderly()
    ensures { (system : System) (tree : Sim) (time : ℕ) (items : List Item) → IsNamed tree → IsOrderly (is_above root) (turn_movers system tree time items) }
{
    orders_are_total();
    one_name();
}

/// An order is lawful exactly where it is drawn: each time of those beneath whom no other is left.
pub fn lawful_orders_are_drawn()
    ensures { (path : Path) (all order : List Delivery) → (IsOrderOf all order × IsLawful path order) ↔ IsDrawn path all order }
{}

/// What numbers draw of a turn's movers, one number for each, is a lawful order of them.
pub fn drawn_orders_are_lawful()
    ensures { (system : System) (tree : Sim) (time : ℕ) (items : List Item) (words : List ℕ) → IsNamed tree → length (turn_movers system tree time items) ≤ length words →
        IsDrawn root (turn_movers system tree time items) (drawn (is_above root) (length (turn_movers system tree time items)) (turn_movers system tree time items) words) }
{
    path_order_is_lawful();
}

/// Each lawful order of a turn's movers comes to the tree of the turn, and tells its events up to
/// their order, where neither faults.
pub fn orders_agree()
    ensures { (system : System) (tree : Sim) (number time : ℕ) (items : List Item) (order : List Delivery) (after other : Sim) → IsNamed tree →
        IsOrderOf (turn_movers system tree time items) order → IsLawful root order →
        (turn system tree number time items).end ≡ Ok after → (free_turn system tree number time items order).end ≡ Ok other →
        (after ≡ other) × IsPermutation (turn system tree number time items).events (free_turn system tree number time items order).events }
{
    orders_are_total();
    one_name();
    turns_move_one_by_one();
}

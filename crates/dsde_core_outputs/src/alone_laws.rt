//! What an atomic component that is the whole model does in the output phase of a turn. A law: it is a call that does
//! nothing.

ghost use Rattle.std.specs.Prelude.{◌≡◌, ◌<◌, ◌≤◌, ◌^◌, ℕ, IsNone, IsSome, length, List};
ghost use Rattle.std.specs.List.{All};
ghost use Rattle.dsde_syntax.specs.declared.decl.Model.{Model};
ghost use Rattle.dsde_values.specs.declared.arrival.Item.{Item};
ghost use Rattle.dsde_values.specs.Path.{root};
ghost use Rattle.dsde_sim_tree.specs.given.formalism.leaf_Leaf.{Leaf};
ghost use Rattle.dsde_sim_tree.specs.given.formalism.Leaf.{component_of};
ghost use Rattle.dsde_sim_tree.specs.given.formalism.System.{Ports, System};
ghost use Rattle.dsde_sim_working.specs.given.system.Fitting.{FitsLeaf};
ghost use Rattle.dsde_sim_working.specs.given.system.Program.{system};
ghost use Rattle.dsde_grove.specs.Grove.{value_of};
ghost use Rattle.dsde_sim_tree.specs.Told.{at};
ghost use Rattle.dsde_sim_tree.specs.Output.{by_port, output, sent};
ghost use Rattle.dsde_sim_tree.specs.Tree.{model_of};
ghost use Rattle.dsde_sim_working.specs.Working.{FitsItems};
ghost use Rattle.dsde_core_parcels.specs.given.core_flat.Scheduled.{held_leaf};
ghost use Rattle.dsde_core_parcels.specs.given.core_flat.due_Due.{Due};
ghost use Rattle.dsde_core_parcels.specs.given.core_flat.Due.{AreDue, IsDue};
ghost use Rattle.dsde_core_parcels.specs.given.core_moves.flat_Flat.{Flat};
ghost use Rattle.dsde_core_parcels.specs.given.core_moves.Flat.{tree_of, Stands};
ghost use Rattle.dsde_core_parcels.specs.given.core_moves.Movers.{AreMovers, Wait};
ghost use Rattle.dsde_core_outputs.specs.Alone.{one_called, IsAlone};
ghost use Rattle.dsde_core_outputs.specs.Rows.{HasRows};

use dsde_sim_working::given::sim_movers::movers_are_walked;
use dsde_sim_working::given::sound_structures::sent_fits;
use dsde_values::orders_are_total;

/// Where nothing is wired, an atomic component of the program lies under the root's handle. What it sends is what the
/// tree sends, and it alone moves in a turn: where it is due, or the items bring something to it. Each who is due has
/// the root's path.
pub(crate) fn lone_components_move()
    ensures lives { (model : Model) (flat : Flat) → Stands model flat → IsNone flat.wiring → IsSome (held_leaf (value_of flat.grove flat.root)) }
    ensures fits { (model : Model) (flat : Flat) (leaf : Leaf) → Stands model flat → IsAlone flat leaf → FitsLeaf model leaf }
    ensures sends { (system : System) (flat : Flat) (leaf : Leaf) (time : ℕ) → IsAlone flat leaf → output system (tree_of flat) root time ≡ at root (sent system leaf time) }
    ensures moves { (model : Model) (flat : Flat) (leaf : Leaf) (time : ℕ) (items : List Item) (got : Ports) → Stands model flat → IsAlone flat leaf → FitsItems model (model_of (tree_of flat)).0 items →
        got ≡ by_port (component_of (system model) leaf).ins items → length got < 2 ^ 32 → AreMovers model flat time items (one_called leaf flat.root root time got) }
    ensures waits { (model : Model) (flat : Flat) (leaf : Leaf) (time : ℕ) (got : Ports) (dues : List Due) → Stands model flat → IsAlone flat leaf → AreDue flat.grove time dues →
        Wait dues (one_called leaf flat.root root time got) }
    ensures many { (model : Model) (flat : Flat) (leaf : Leaf) (time : ℕ) (got : Ports) (dues : List Due) → Stands model flat → IsAlone flat leaf → AreDue flat.grove time dues →
        length dues ≤ length (one_called leaf flat.root root time got) }
    ensures paths { (model : Model) (flat : Flat) (leaf : Leaf) (time : ℕ) (dues : List Due) → Stands model flat → IsAlone flat leaf → AreDue flat.grove time dues → All (λ due. due.path ≡ root) dues }
    ensures dues { (model : Model) (flat : Flat) (time : ℕ) → Stands model flat → IsNone flat.wiring → (due : Due) → IsDue flat.grove time due → due.path ≡ root }
    ensures rows { (model : Model) (flat : Flat) (leaf : Leaf) (time : ℕ) (items : List Item) (dues : List Due) → Stands model flat → IsAlone flat leaf → AreDue flat.grove time dues → HasRows model flat time items 0 }
{
    sent_fits();
    movers_are_walked();
    orders_are_total();
}

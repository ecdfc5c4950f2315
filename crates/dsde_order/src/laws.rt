//! That it does not matter in which order the movers of a turn move. Each law is a call that does nothing.

ghost use Rattle.std.specs.Prelude.{◌≡◌, ℕ, List, Option, Ok, IfSome};
ghost use Rattle.std.specs.List.{AllByRecursion};
ghost use Rattle.std.specs.List.Sorted.{IsPermutation, IsStrictlySortedBy};
ghost use Rattle.rand_pcg.specs.Lcg.{Lcg};
ghost use Rattle.dsde_values.specs.declared.arrival.Item.{Item};
ghost use Rattle.dsde_values.specs.declared.path.Path.{Path};
ghost use Rattle.dsde_values.specs.Path.{IsPath, path_cmp, root};
ghost use Rattle.dsde_sim_tree.specs.given.formalism.System.{System};
ghost use Rattle.dsde_sim_tree.specs.declared.sim.Sim.{Sim};
ghost use Rattle.dsde_values.specs.declared.arrival.Arrival.{Arrival};
ghost use Rattle.dsde_sim_tree.specs.declared.step.Step.{Step};
ghost use Rattle.dsde_sim_tree.specs.Engine.{Engine};
ghost use Rattle.dsde_sim_tree.specs.Turn as turns;
ghost use Rattle.dsde_sim_tree.specs.Turn.{turn};
ghost use Rattle.dsde_sim_movers.specs.Names.{IsNamed};
ghost use Rattle.dsde_drawing.specs.Drawing.{IsOrderly};
ghost use Rattle.dsde_sim_movers.specs.Orders.{is_over};
ghost use Rattle.dsde_order.specs.Free.{Drawing, advance, drawn_turn};

use dsde_sim_movers::{drawn_orders_are_lawful, lawful_orders_are_drawn, orders_agree};
use dsde_values::{one_name, orders_are_total};

/// A turn in an order that is drawn comes to the tree of the turn in path order, and tells its events up to
/// their order, where neither faults.
pub fn drawn_turns_agree()
    ensures { (system : System) (tree : Sim) (number time : ℕ) (items : List Item) (generator : Lcg) (after other : Sim) → IsNamed tree →
        (turn system tree number time items).end ≡ Ok after → (drawn_turn system tree number time items generator).end ≡ Ok other →
        (after ≡ other) × IsPermutation (turn system tree number time items).events (drawn_turn system tree number time items generator).events }
{
    drawn_orders_are_lawful();
    lawful_orders_are_drawn();
    orders_agree();
}

/// An engine that draws takes the step that it takes in path order, comes to the same engine by it, and tells its
/// events up to their order, where neither faults.
pub fn drawn_advances_agree()
    ensures { (system : System) (own after : Drawing) (head : Option Arrival) (step : Step) (other : Step × Engine) → IfSome own.engine.tree IsNamed →
        (turns.advance system own.engine head).end ≡ Ok other → (advance system own head).end ≡ Ok (step, after) →
        (other ≡ (step, after.engine)) × IsPermutation (turns.advance system own.engine head).events (advance system own head).events }
{
    drawn_turns_agree();
}

/// Paths of components and executives that stand in path order, each once, are orderly for a draw: no executive
/// stands before one beneath its network, and those beneath it stand side by side.
pub fn paths_in_order_are_orderly()
    ensures { (paths : List Path) → AllByRecursion IsPath paths → IsStrictlySortedBy path_cmp paths → IsOrderly (is_over root) paths }
{
    orders_are_total();
    one_name();
}

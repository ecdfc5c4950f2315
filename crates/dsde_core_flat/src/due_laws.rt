//! Who is due by handles is who is due in the tree. Each law is a call that does nothing.

ghost use Rattle.std.specs.Prelude.{◌≡◌, ℕ, List, map, Option};
ghost use Rattle.dsde_bank.specs.declared.handle.Handle.{Handle};
ghost use Rattle.dsde_values.specs.Path.{root};
ghost use Rattle.dsde_grove.specs.Grove.{Grove, IsTree};
ghost use Rattle.dsde_sim_tree.specs.given.formalism.System.{System};
ghost use Rattle.dsde_sim_tree.specs.declared.sim.Sim.{Sim};
ghost use Rattle.dsde_sim_tree.specs.Output.{output};
ghost use Rattle.dsde_sim_movers.specs.Asking.{seated, due_ones, ending, ask_each};
ghost use Rattle.dsde_sim_movers.specs.Names.{IsNamed};
ghost use Rattle.dsde_routes_wiring.specs.declared.wiring.Wiring.{Wiring};
ghost use Rattle.dsde_core_flat.specs.declared.spot.Spot.{Spot};
ghost use Rattle.dsde_core_flat.specs.Stands.{StandsFor};
ghost use Rattle.dsde_core_flat.specs.declared.due.Due.{Due};
ghost use Rattle.dsde_core_flat.specs.Due.{after_time, asked, handle_of, AreDue, IsDue};
ghost use Rattle.dsde_core_flat.specs.Scheduled.{IsScheduled, IsScheduledBut};
ghost use Rattle.dsde_queue.specs.Queue.{IsOrdered};
ghost use Rattle.dsde_values.specs.declared.path.Path.{Path};

use dsde_sim_movers::outputs_are_asked;

/// Those that are due, by handle and path, are those of the tree that are due, in path order.
pub fn due_leaves_are_asked()
    ensures { (own : Grove Spot) (time : ℕ) (top : Handle) (wiring : Option Wiring) (tree : Sim) (list : List Due) → StandsFor own top wiring tree → IsNamed tree → AreDue own time list →
        map (asked own) list ≡ due_ones time (seated tree root) }
{}

/// The output message of a tree ends as asking those that are due, one after another: with the same first
/// fault.
pub fn outputs_ask_the_due()
    ensures { (system : System) (own : Grove Spot) (time : ℕ) (top : Handle) (wiring : Option Wiring) (tree : Sim) (list : List Due) → StandsFor own top wiring tree → IsNamed tree → AreDue own time list →
        ending (output system tree root time) ≡ ask_each system time (map (asked own) list) }
{
    outputs_are_asked();
}

/// Where whoever is due at a time has this path, the pairs that are left when those of that time are taken out of a
/// schedule serve all others.
pub fn lone_due_wait()
    ensures { (own : Grove Spot) (time : ℕ) (pairs : List (ℕ × Handle)) (path : Path) → IsTree own → IsScheduled own pairs → IsOrdered pairs → ((due : Due) → IsDue own time due → due.path ≡ path) →
        (list : List Due) × AreDue own time list × IsScheduledBut own (map handle_of list) (after_time time pairs) }
{}

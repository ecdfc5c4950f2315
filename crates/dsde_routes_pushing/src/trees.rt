//! The laws that tie wirings to trees. Each is a call that does nothing.

ghost use Rattle.std.specs.Prelude.{◌≡◌, ℕ, List, [], Ok, map, slice_index_or};
ghost use Rattle.std.specs.List.{AllByRecursion, flat_map};
ghost use Rattle.dsde_bank.specs.declared.handle.Handle.{Handle};
ghost use Rattle.dsde_values.specs.declared.path.Path.{Path};
ghost use Rattle.dsde_sim_movers.specs.given.formalism.System.{Ports, System};
ghost use Rattle.dsde_sim_movers.specs.given.sim_tree.sim_Net.{Net};
ghost use Rattle.dsde_sim_movers.specs.given.sim_tree.sim_Sim_TheVariants as sim;
ghost use Rattle.dsde_sim_movers.specs.given.sim_tree.Output.{output};
ghost use Rattle.dsde_sim_movers.specs.Deliveries as tree;
ghost use Rattle.dsde_routes_wiring.specs.declared.row.Row.{Row};
ghost use Rattle.dsde_routes_wiring.specs.Flatten.{flatten};
ghost use Rattle.dsde_routes_wiring.specs.Wired.{HasOwnHandles};
ghost use Rattle.dsde_routes_pushing.specs.Carried.{Traffic, load, pushed};
ghost use Rattle.dsde_routes_pushing.specs.Fitting.{HavePorts};
ghost use Rattle.dsde_routes_pushing.specs.Pushed.{AreRowsTo};
ghost use Rattle.dsde_routes_pushing.specs.Wire.{IsTrafficOf, handed, wired_net};

use crate::pushing::push_equals_gather;

/// What the links of a tree carry in a turn to its components and executives, and what it sends, is
/// what those of its wiring carry, whatever handles its parts have. The root of the wiring has the handle
/// of the tree's path.
pub fn wirings_carry_as_trees()
    ensures received { (system : System) (handle : Path → Handle) (time : ℕ) (traffic : Traffic) (net : Net) (path : Path) → IsTrafficOf system handle time traffic (sim.Net net) path → (got : Ports) →
        map (handed handle) (tree.deliveries system (sim.Net net) path time got) ≡ (load traffic (wired_net handle net path)).deliveries got }
    ensures sent { (system : System) (handle : Path → Handle) (time : ℕ) (traffic : Traffic) (net : Net) (path : Path) → IsTrafficOf system handle time traffic (sim.Net net) path →
        output system (sim.Net net) path time ≡ Ok (load traffic (wired_net handle net path)).sends }
    ensures root { (system : System) (handle : Path → Handle) (time : ℕ) (traffic : Traffic) (net : Net) (path : Path) → IsTrafficOf system handle time traffic (sim.Net net) path →
        (load traffic (wired_net handle net path)).me ≡ handle path }
{}

/// So what each of them receives at a port is what the rows to that port push there, in the order of
/// their rank.
pub fn rows_carry_as_trees()
    ensures { (system : System) (handle : Path → Handle) (time : ℕ) (traffic : Traffic) (net : Net) (path : Path) → IsTrafficOf system handle time traffic (sim.Net net) path →
        HasOwnHandles (wired_net handle net path) → HavePorts traffic (wired_net handle net path) →
        AllByRecursion (λ delivery. (port : ℕ) (list : List Row) → AreRowsTo (flatten (wired_net handle net path)) (handle delivery.path) port list → slice_index_or delivery.ports port [] ≡ flat_map (pushed traffic) list)
        (tree.deliveries system (sim.Net net) path time (traffic.sent (handle path))) }
{
    wirings_carry_as_trees();
    push_equals_gather();
}

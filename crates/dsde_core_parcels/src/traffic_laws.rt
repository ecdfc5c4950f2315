//! What a tree that lies in a grove carries. Each law is a call that does nothing.

ghost use Rattle.std.specs.Prelude.{◌≡◌, ℕ, true, List, IsPermutation};
ghost use Rattle.std.specs.FinSet as set;
ghost use Rattle.std.specs.List.{AllByRecursion};
ghost use Rattle.dsde_bank.specs.declared.handle.Handle.{Handle};
ghost use Rattle.dsde_syntax.specs.declared.decl.Model.{Model};
ghost use Rattle.dsde_values.specs.declared.arrival.Item.{Item};
ghost use Rattle.dsde_values.specs.Path.{root};
ghost use Rattle.dsde_sim_tree.specs.given.formalism.System.{Ports};
ghost use Rattle.dsde_core_moves.specs.given.system.Program.{system};
ghost use Rattle.dsde_core_moves.specs.given.grove.Grove.{Grove};
ghost use Rattle.dsde_sim_tree.specs.declared.sim.Net.{Net};
ghost use Rattle.dsde_sim_tree.specs.declared.sim.Sim.TheVariants as sim;
ghost use Rattle.dsde_sim_tree.specs.Move.{ins_of};
ghost use Rattle.dsde_sim_tree.specs.Output.{by_port};
ghost use Rattle.dsde_routes_wiring.specs.declared.row.Row.{Row};
ghost use Rattle.dsde_routes_wiring.specs.declared.wiring.Wiring.{Wiring};
ghost use Rattle.dsde_routes_wiring.specs.Flatten.{flatten};
ghost use Rattle.dsde_routes_wiring.specs.Wired.{HasOwnHandles};
ghost use Rattle.dsde_routes_pushing.specs.Fitting.{HavePorts};
ghost use Rattle.dsde_routes_pushing.specs.Wire.{IsTrafficOf, wired_net};
ghost use Rattle.dsde_core_moves.specs.given.core_flat.spot_Spot.{Spot};
ghost use Rattle.dsde_core_parcels.specs.declared.parcel.Outlet.{Outlet};
ghost use Rattle.dsde_core_parcels.specs.declared.parcel.Parcel.{Parcel};
ghost use Rattle.dsde_core_parcels.specs.Parcels.{AreOrdered, ArePushed, GoFrom};
ghost use Rattle.dsde_core_parcels.specs.Delivered.{AreTurnParcels};
ghost use Rattle.dsde_core_parcels.specs.Sent.{IsSentBy, TellTargets};
ghost use Rattle.dsde_core_parcels.specs.Traffic.{GoesToPort, IsCarrying, handle_in, traffic_of};

use dsde_core_moves::given::sound_structures::reach_covers;
use dsde_routes_pushing::rows_lead_to_parts;

/// Where a network of the program lies in a grove with its wiring, the wiring is that of the tree under
/// the handles of its parts, and no two of them have one. What lies under the handles is the tree's
/// traffic; each link leads to a port that there is, births tell the targets of rows, and what is sent at
/// the source of a row goes along it to values of the type of its target's port.
pub fn flat_states_carry()
    ensures wiring { (model : Model) (own : Grove Spot) (top : Handle) (wiring : Wiring) (net : Net) (time : ℕ) (got : Ports) → IsCarrying model own top wiring net time got →
        wired_net (handle_in top wiring) net root ≡ wiring }
    ensures root { (model : Model) (own : Grove Spot) (top : Handle) (wiring : Wiring) (net : Net) (time : ℕ) (got : Ports) → IsCarrying model own top wiring net time got →
        handle_in top wiring root ≡ top }
    ensures traffic { (model : Model) (own : Grove Spot) (top : Handle) (wiring : Wiring) (net : Net) (time : ℕ) (got : Ports) → IsCarrying model own top wiring net time got →
        IsTrafficOf (system model) (handle_in top wiring) time (traffic_of (system model) own top time got) (sim.Net net) root }
    ensures handles { (model : Model) (own : Grove Spot) (top : Handle) (wiring : Wiring) (net : Net) (time : ℕ) (got : Ports) → IsCarrying model own top wiring net time got →
        HasOwnHandles wiring }
    ensures ports { (model : Model) (own : Grove Spot) (top : Handle) (wiring : Wiring) (net : Net) (time : ℕ) (got : Ports) → IsCarrying model own top wiring net time got →
        HavePorts (traffic_of (system model) own top time got) wiring }
    ensures tell { (model : Model) (own : Grove Spot) (top : Handle) (wiring : Wiring) (net : Net) (time : ℕ) (got : Ports) → IsCarrying model own top wiring net time got →
        TellTargets (flatten wiring) }
    ensures goes { (model : Model) (own : Grove Spot) (top : Handle) (wiring : Wiring) (net : Net) (time : ℕ) (got : Ports) → IsCarrying model own top wiring net time got →
        (row : Row) → set.contains (flatten wiring) row ≡ true → GoesToPort model own (traffic_of (system model) own top time got).sent row }
{
    rows_lead_to_parts();
    reach_covers();
}

/// So what comes out of the ports of its sources, each once, may go along the rows from there.
pub fn flat_outlets_go()
    ensures { (model : Model) (own : Grove Spot) (top : Handle) (wiring : Wiring) (net : Net) (time : ℕ) (got : Ports) (outlets : List Outlet) → IsCarrying model own top wiring net time got →
        IsSentBy (traffic_of (system model) own top time got) outlets → AllByRecursion (GoFrom model (flatten wiring)) outlets }
{
    flat_states_carry();
}

/// And what is pushed of it, in order, are the parcels of a turn of the tree.
pub fn flat_parcels_are_of_turns()
    ensures { (model : Model) (own : Grove Spot) (top : Handle) (wiring : Wiring) (net : Net) (time : ℕ) (items : List Item) (outlets : List Outlet) (pushed parcels : List Parcel) →
        IsCarrying model own top wiring net time (by_port (ins_of (system model) (sim.Net net)) items) →
        IsSentBy (traffic_of (system model) own top time (by_port (ins_of (system model) (sim.Net net)) items)) outlets →
        ArePushed (flatten wiring) (system model).translate outlets pushed → IsPermutation pushed parcels → AreOrdered parcels →
        AreTurnParcels (system model) (handle_in top wiring) time (traffic_of (system model) own top time (by_port (ins_of (system model) (sim.Net net)) items)) net items parcels }
{
    flat_states_carry();
}

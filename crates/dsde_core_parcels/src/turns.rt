//! What the inboxes of a turn bring to the components and executives of a tree. Each law is a call that
//! does nothing.

ghost use Rattle.std.specs.Prelude.{◌≡◌, ◌↔◌, ℕ, List, [], Ok, slice_index_or, Contains};
ghost use Rattle.std.specs.List.{AllByRecursion};
ghost use Rattle.dsde_bank.specs.declared.handle.Handle.{Handle};
ghost use Rattle.dsde_values.specs.declared.arrival.Item.{Item};
ghost use Rattle.dsde_values.specs.declared.path.Path.{Path};
ghost use Rattle.dsde_values.specs.Path.{root};
ghost use Rattle.dsde_sim_tree.specs.given.formalism.System.{Ports, System};
ghost use Rattle.dsde_sim_tree.specs.declared.sim.Net.{Net};
ghost use Rattle.dsde_sim_tree.specs.declared.sim.Sim.TheVariants as sim;
ghost use Rattle.dsde_sim_tree.specs.Move.{ins_of};
ghost use Rattle.dsde_sim_tree.specs.Output.{by_port, output};
ghost use Rattle.dsde_routes_pushing.specs.given.sim_movers.Deliveries.{Delivery, deliveries};
ghost use Rattle.dsde_routes_pushing.specs.given.sim_movers.Turns.{turn_movers};
ghost use Rattle.dsde_routes_pushing.specs.given.sim_movers.Movers.{AreInPathOrder};
ghost use Rattle.dsde_routes_pushing.specs.Carried.{Traffic};
ghost use Rattle.dsde_core_parcels.specs.declared.parcel.Parcel.{Parcel};
ghost use Rattle.dsde_core_parcels.specs.Brought.{brought};
ghost use Rattle.dsde_core_parcels.specs.Delivered.{AreTurnParcels, IsBrought, IsCalled, inboxes_of};

use dsde_routes_pushing::given::sim_movers::{
    deliveries_are_found, leaves_have_deliveries, leaves_have_paths, movers_are_those,
};
use dsde_routes_pushing::{push_equals_gather, rows_carry_as_trees, wirings_carry_as_trees};

/// What comes to each component and each executive in a turn is what the inboxes bring under its
/// handle, port by port.
pub fn inboxes_are_delivered()
    ensures { (system : System) (handle : Path → Handle) (time : ℕ) (traffic : Traffic) (net : Net) (items : List Item) (parcels : List Parcel) → AreTurnParcels system handle time traffic net items parcels →
        AllByRecursion (IsBrought system handle (sim.Net net) (inboxes_of parcels)) (deliveries system (sim.Net net) root time (by_port (ins_of system (sim.Net net)) items)) }
{
    deliveries_are_found();
    rows_carry_as_trees();
    push_equals_gather();
}

/// So a list in path order of those that are due or to which the inboxes bring something is that of the
/// turn's movers.
pub fn called_are_movers()
    ensures { (system : System) (handle : Path → Handle) (time : ℕ) (traffic : Traffic) (net : Net) (items : List Item) (parcels : List Parcel) → AreTurnParcels system handle time traffic net items parcels →
        (sent : Ports) → output system (sim.Net net) root time ≡ Ok sent → (list : List Delivery) → AreInPathOrder list →
        ((own : Delivery) → Contains list own ↔ IsCalled system handle (sim.Net net) time (inboxes_of parcels) own) → list ≡ turn_movers system (sim.Net net) time items }
{
    inboxes_are_delivered();
    deliveries_are_found();
    leaves_have_deliveries();
    leaves_have_paths();
    movers_are_those();
}

/// What the root sends by a port is what the inboxes bring under its own handle.
pub fn inboxes_are_sent()
    ensures { (system : System) (handle : Path → Handle) (time : ℕ) (traffic : Traffic) (net : Net) (items : List Item) (parcels : List Parcel) → AreTurnParcels system handle time traffic net items parcels →
        (sent : Ports) → output system (sim.Net net) root time ≡ Ok sent → (port : ℕ) → slice_index_or sent port [] ≡ brought (inboxes_of parcels) (handle root) port }
{
    wirings_carry_as_trees();
    push_equals_gather();
}

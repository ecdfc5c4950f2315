//! What those who are due send. A law is a call that does nothing.

ghost use Rattle.std.specs.Prelude.{ℕ, List};
ghost use Rattle.dsde_bank.specs.declared.handle.Handle.{Handle};
ghost use Rattle.dsde_syntax.specs.declared.decl.Model.{Model};
ghost use Rattle.dsde_sim_tree.specs.given.formalism.System.{Ports};
ghost use Rattle.dsde_core_moves.specs.given.system.Program.{system};
ghost use Rattle.dsde_core_moves.specs.given.grove.Grove.{Grove};
ghost use Rattle.dsde_sim_tree.specs.declared.sim.Net.{Net};
ghost use Rattle.dsde_routes_wiring.specs.declared.wiring.Wiring.{Wiring};
ghost use Rattle.dsde_core_moves.specs.given.core_flat.spot_Spot.{Spot};
ghost use Rattle.dsde_core_moves.specs.given.core_flat.due_Due.{Due};
ghost use Rattle.dsde_core_moves.specs.given.core_flat.Due.{AreDue};
ghost use Rattle.dsde_core_parcels.specs.Sent.{IsSentBy};
ghost use Rattle.dsde_core_parcels.specs.Traffic.{IsCarrying, traffic_of};
ghost use Rattle.dsde_core_parcels.specs.Outlets.{turn_outlets};

/// What those who are due send, and what came to the root, is what the tree that lies in the grove carries:
/// it comes out of ports that are distinct, and nothing comes out of others.
pub fn flat_outlets_are_sent()
    ensures { (model : Model) (own : Grove Spot) (top : Handle) (wiring : Wiring) (net : Net) (time : ℕ) (got : Ports) (due : List Due) → IsCarrying model own top wiring net time got → AreDue own time due →
        IsSentBy (traffic_of (system model) own top time got) (turn_outlets (system model) time own top got due) }
{}

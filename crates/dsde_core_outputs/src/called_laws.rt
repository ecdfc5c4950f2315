//! Who is called in a turn. Each law is a call that does nothing.

ghost use Rattle.std.specs.Prelude.{◌≡◌, ℕ, List, Ok, map, IsPermutation, IsSorted};
ghost use Rattle.std.specs.List.{AllByRecursion, flat_map};
ghost use Rattle.dsde_bank.specs.declared.handle.Handle.{Handle};
ghost use Rattle.dsde_syntax.specs.declared.decl.Model.{Model};
ghost use Rattle.dsde_values.specs.declared.arrival.Item.{Item};
ghost use Rattle.dsde_values.specs.Path.{root};
ghost use Rattle.dsde_language.specs.Right.{IsRight};
ghost use Rattle.dsde_sim_tree.specs.given.formalism.System.{Ports};
ghost use Rattle.dsde_sim_working.specs.given.system.Program.{system};
ghost use Rattle.dsde_grove.specs.Grove.{Grove};
ghost use Rattle.dsde_sim_tree.specs.declared.sim.Net.{Net};
ghost use Rattle.dsde_sim_tree.specs.declared.sim.Sim.TheVariants as sim;
ghost use Rattle.dsde_sim_tree.specs.declared.sim.Sim.TheViews.{out-Net};
ghost use Rattle.dsde_sim_tree.specs.Output.{output};
ghost use Rattle.dsde_sim_working.specs.given.sim_movers.Turns.{turn_movers};
ghost use Rattle.dsde_core_parcels.specs.given.routes_wiring.wiring_Wiring.{Wiring};
ghost use Rattle.dsde_core_parcels.specs.given.core_flat.spot_Spot.{Spot};
ghost use Rattle.dsde_core_parcels.specs.given.core_flat.due_Due.{Due};
ghost use Rattle.dsde_core_parcels.specs.declared.inbox.Inbox.{Inbox};
ghost use Rattle.dsde_core_parcels.specs.Inboxes.{spread};
ghost use Rattle.dsde_core_parcels.specs.given.core_moves.flat_Mover.{Mover};
ghost use Rattle.dsde_core_parcels.specs.given.core_moves.Flat.{delivery_of};
ghost use Rattle.dsde_core_parcels.specs.Calling.{called, due_mover, due_movers, emptied, gets_for, left_by, mover_cmp, told_by};
ghost use Rattle.dsde_core_outputs.specs.Filled.{AreFilled};
ghost use Rattle.dsde_core_outputs.specs.Called.{IsFit, IsLiveMover};

use dsde_core_parcels::given::routes_pushing::push_equals_gather;
use dsde_core_parcels::{
    called_are_movers, flat_states_carry, inboxes_are_apart, inboxes_are_received, inboxes_are_sent,
};
use dsde_sim_working::given::sim_movers::leaves_have_paths;
use dsde_sim_working::given::sound_structures::translations_keep_types;

/// What is taken out of inboxes for the root and for one after another of those who are due is what came to
/// each of them, and what is left brings the same to all others.
pub fn due_are_called()
    ensures due { (model : Model) (own : Grove Spot) (top : Handle) (wiring : Wiring) (net : Net) (time : ℕ) (items : List Item) (due : List Due) (inboxes : List Inbox) → AreFilled model own top wiring net time items due inboxes →
        due_movers (system model) own due (map (emptied top) inboxes) ≡ map (due_mover (system model) own inboxes) due }
    ensures told { (model : Model) (own : Grove Spot) (top : Handle) (wiring : Wiring) (net : Net) (time : ℕ) (items : List Item) (due : List Due) (inboxes : List Inbox) → AreFilled model own top wiring net time items due inboxes →
        flat_map (told_by (system model) own time) (left_by due (map (emptied top) inboxes)) ≡ flat_map (told_by (system model) own time) inboxes }
    ensures order { (model : Model) (own : Grove Spot) (top : Handle) (wiring : Wiring) (net : Net) (time : ℕ) (items : List Item) (due : List Due) (inboxes : List Inbox) → AreFilled model own top wiring net time items due inboxes →
        IsSorted mover_cmp (map (due_mover (system model) own inboxes) due) }
{}

/// Who is called lives under its handle, and its path is that of whoever lives there.
pub fn called_live()
    ensures { (model : Model) (own : Grove Spot) (top : Handle) (wiring : Wiring) (net : Net) (time : ℕ) (items : List Item) (due : List Due) (inboxes : List Inbox) → AreFilled model own top wiring net time items due inboxes →
        AllByRecursion (IsLiveMover own) (called (system model) own time due inboxes) }
{}

/// Where the output message has no fault, those who are called, in path order, are the movers of the turn.
pub fn called_move()
    ensures { (model : Model) (own : Grove Spot) (top : Handle) (wiring : Wiring) (net : Net) (time : ℕ) (items : List Item) (due : List Due) (inboxes : List Inbox) → AreFilled model own top wiring net time items due inboxes →
        (sent : Ports) → output (system model) (sim.Net net) root time ≡ Ok sent → (list : List Mover) → IsPermutation (called (system model) own time due inboxes) list → IsSorted mover_cmp list →
        map delivery_of list ≡ turn_movers (system model) (sim.Net net) time items }
{
    called_are_movers();
    inboxes_are_apart();
    inboxes_are_received();
    leaves_have_paths();
}

/// What comes to those who are called has the types of their in ports.
pub fn called_fit()
    ensures { (model : Model) (own : Grove Spot) (top : Handle) (wiring : Wiring) (net : Net) (time : ℕ) (items : List Item) (due : List Due) (inboxes : List Inbox) → IsRight model → AreFilled model own top wiring net time items due inboxes →
        AllByRecursion (IsFit model own) (called (system model) own time due inboxes) }
{
    inboxes_are_apart();
    inboxes_are_received();
    flat_states_carry();
    push_equals_gather();
    translations_keep_types();
}

/// What came to the root, port by port, is what the tree sends.
pub fn root_is_sent()
    ensures { (model : Model) (own : Grove Spot) (top : Handle) (wiring : Wiring) (net : Net) (time : ℕ) (items : List Item) (due : List Due) (inboxes : List Inbox) → AreFilled model own top wiring net time items due inboxes →
        (sent : Ports) → output (system model) (sim.Net net) root time ≡ Ok sent → sent ≡ spread ((system model).network (out-Net net).model (out-Net net).args).outs (gets_for top inboxes) }
{
    inboxes_are_sent();
    flat_states_carry();
}

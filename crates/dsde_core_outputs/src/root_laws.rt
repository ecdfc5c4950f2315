//! The output phase of a turn of a network. Each law is a call that does nothing.

ghost use Rattle.std.specs.Prelude.{◌≡◌, ◌<◌, ℕ, true, List, length, map, Ok, Err, IsPermutation, IsSome, IsSorted, Result};
ghost use Rattle.std.specs.List.{AllByRecursion};
ghost use Rattle.dsde_syntax.specs.declared.decl.Model.{Model};
ghost use Rattle.dsde_values.specs.declared.arrival.Item.{Item};
ghost use Rattle.dsde_values.specs.Path.{root};
ghost use Rattle.dsde_language.specs.Right.{IsRight};
ghost use Rattle.dsde_language.specs.NodeModels.{infos_of};
ghost use Rattle.dsde_sim_tree.specs.given.formalism.System.{Ports};
ghost use Rattle.dsde_sim_working.specs.given.system.Program.{system};
ghost use Rattle.dsde_grove.specs.Grove.{value_of};
ghost use Rattle.dsde_sim_tree.specs.declared.fault.TurnEnd.{TurnEnd};
ghost use Rattle.dsde_sim_tree.specs.Told.{Comes};
ghost use Rattle.dsde_sim_tree.specs.Move.{ins_of};
ghost use Rattle.dsde_sim_tree.specs.Output.{output};
ghost use Rattle.dsde_sim_working.specs.given.sim_movers.Asking.{ask_each};
ghost use Rattle.dsde_core_parcels.specs.given.core_flat.Shown.{args_in, model_in};
ghost use Rattle.dsde_core_parcels.specs.given.core_flat.due_Due.{Due};
ghost use Rattle.dsde_core_parcels.specs.given.core_flat.Due.{AreDue, asked};
ghost use Rattle.dsde_core_parcels.specs.declared.inbox.Inbox.{Inbox};
ghost use Rattle.dsde_core_parcels.specs.declared.parcel.Outlet.{Outlet};
ghost use Rattle.dsde_core_parcels.specs.Inboxes.{spread};
ghost use Rattle.dsde_core_parcels.specs.Parcels.{GoFrom};
ghost use Rattle.dsde_core_parcels.specs.Calling.{due_movers, emptied, gets_for, mover_cmp, IsFew};
ghost use Rattle.dsde_core_parcels.specs.given.core_moves.flat_Flat.{Flat};
ghost use Rattle.dsde_core_parcels.specs.given.core_moves.flat_Mover.{Mover};
ghost use Rattle.dsde_core_parcels.specs.given.core_moves.Flat.{tree_of, Stands};
ghost use Rattle.dsde_core_parcels.specs.given.core_moves.Movers.{AreMovers, Wait};
ghost use Rattle.dsde_core_outputs.specs.Rooting.{outs_of, taken_by, AreReady, AreSent, FillInboxes, IsRooted};

use crate::{called_fit, called_live, called_move, due_are_called, root_is_sent};
use dsde_core_parcels::given::core_flat::outputs_ask_the_due;
use dsde_core_parcels::{flat_outlets_are_sent, flat_outlets_go, flat_parcels_are_of_turns};

/// Where a flat state that stands has a wiring, its root is a network of the program, with the in ports of
/// the model under the root's handle.
pub fn roots_are_networks()
    ensures rooted { (model : Model) (flat : Flat) → Stands model flat → IsSome flat.wiring → IsRooted model flat }
    ensures below { (model : Model) (flat : Flat) → Stands model flat → IsSome flat.wiring → (model_in (value_of flat.grove flat.root)).0 < length (infos_of model) }
    ensures network { (model : Model) (flat : Flat) → Stands model flat → IsSome flat.wiring → (system model).is_network (model_in (value_of flat.grove flat.root)) ≡ true }
    ensures ins { (model : Model) (flat : Flat) → Stands model flat → IsSome flat.wiring →
        ins_of (system model) (tree_of flat) ≡ ((system model).network (model_in (value_of flat.grove flat.root)) (args_in (value_of flat.grove flat.root))).ins }
{}

/// Asking those who are due, one after another, ends as the output message of the tree does: with the same
/// first fault, and else something is sent.
pub fn outputs_come_of_asking()
    ensures sent { (model : Model) (flat : Flat) (time : ℕ) (dues : List Due) → Stands model flat → AreDue flat.grove time dues → ask_each (system model) time (map (asked flat.grove) dues) ≡ Ok tt →
        (sent : Ports) × (output (system model) (tree_of flat) root time ≡ Ok sent) }
    ensures fault { (model : Model) (flat : Flat) (time : ℕ) (dues : List Due) (end : TurnEnd) → Stands model flat → AreDue flat.grove time dues →
        Comes (ask_each (system model) time (map (asked flat.grove) dues)) (let ended : Result (Unit {0}) TurnEnd = Err end in ended) →
        Comes (output (system model) (tree_of flat) root time) (let ended : Result Ports TurnEnd = Err end in ended) }
{
    outputs_ask_the_due();
}

/// What comes out of the ports of a network and its parts may go along the rows from there, and fills the
/// inboxes of the turn.
pub fn outlets_fill_inboxes()
    ensures go { (model : Model) (flat : Flat) (time : ℕ) (items : List Item) (dues : List Due) (outlets : List Outlet) → Stands model flat → IsSome flat.wiring → AreSent model flat time items dues outlets →
        AllByRecursion (GoFrom model flat.rows) outlets }
    ensures ready { (model : Model) (flat : Flat) (time : ℕ) (items : List Item) (dues : List Due) (outlets : List Outlet) (inboxes : List Inbox) → Stands model flat → IsSome flat.wiring → AreSent model flat time items dues outlets →
        FillInboxes flat.rows (system model).translate outlets inboxes → AreReady model flat time items dues inboxes }
{
    roots_are_networks();
    flat_outlets_are_sent();
    flat_outlets_go();
    flat_parcels_are_of_turns();
}

/// Once the inboxes of a turn are filled, what is in that of the root is what the tree sends, and who is due
/// or finds something in the others moves, each with what came to it.
pub fn full_inboxes_call()
    ensures order { (model : Model) (flat : Flat) (time : ℕ) (items : List Item) (dues : List Due) (inboxes : List Inbox) → AreReady model flat time items dues inboxes →
        IsSorted mover_cmp (due_movers (system model) flat.grove dues (map (emptied flat.root) inboxes)) }
    ensures sent { (model : Model) (flat : Flat) (time : ℕ) (items : List Item) (dues : List Due) (inboxes : List Inbox) (sent : Ports) → AreReady model flat time items dues inboxes →
        output (system model) (tree_of flat) root time ≡ Ok sent → sent ≡ spread (outs_of (system model) flat) (gets_for flat.root inboxes) }
    ensures movers { (model : Model) (flat : Flat) (time : ℕ) (items : List Item) (dues : List Due) (inboxes : List Inbox) (sent : Ports) (list : List Mover) → IsRight model → AreReady model flat time items dues inboxes →
        output (system model) (tree_of flat) root time ≡ Ok sent →
        IsPermutation (taken_by (system model) flat.grove time dues (map (emptied flat.root) inboxes)) list → IsSorted mover_cmp list → AllByRecursion IsFew list →
        AreMovers model flat time items list }
    ensures wait { (model : Model) (flat : Flat) (time : ℕ) (items : List Item) (dues : List Due) (inboxes : List Inbox) (list : List Mover) → AreReady model flat time items dues inboxes →
        IsPermutation (taken_by (system model) flat.grove time dues (map (emptied flat.root) inboxes)) list →
        Wait dues list }
{
    due_are_called();
    called_live();
    called_move();
    called_fit();
    root_is_sent();
}

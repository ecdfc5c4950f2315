//! What the definitions of a move and of a turn keep. Each law is a call that does nothing.

ghost use Rattle.std.specs.Prelude.{◌≡◌, ℕ, Err, IfErr, IfOk, IfSome, List, Ok, Option, Result, drop, length, map};
ghost use Rattle.std.specs.List.{filter, flat_map};
ghost use Rattle.dsde_values.specs.declared.arrival.Arrival.{Arrival};
ghost use Rattle.dsde_values.specs.declared.arrival.Item.{Item};
ghost use Rattle.dsde_values.specs.Path.{root};
ghost use Rattle.dsde_sim_tree.specs.given.formalism.System.{Ports, System};
ghost use Rattle.dsde_sim_tree.specs.declared.event.Event.{Event};
ghost use Rattle.dsde_sim_tree.specs.declared.fault.TurnEnd.{TurnEnd};
ghost use Rattle.dsde_sim_tree.specs.Told.{Tells};
ghost use Rattle.dsde_sim_tree.specs.declared.sim.Sim.{Sim};
ghost use Rattle.dsde_sim_tree.specs.Output.{by_port, output};
ghost use Rattle.dsde_sim_tree.specs.Move.{ins_of};
ghost use Rattle.dsde_sim_tree.specs.declared.step.Step.{Step};
ghost use Rattle.dsde_sim_tree.specs.Engine.{Engine};
ghost use Rattle.dsde_sim_tree.specs.Turn.{advance, turn};
ghost use Rattle.dsde_sim_movers.specs.Places.{IsInOrder, leaves_from};
ghost use Rattle.dsde_sim_movers.specs.Deliveries.{deliveries, gets_of, is_get};
ghost use Rattle.dsde_sim_movers.specs.Delivered.{IsDelivered, IsTurnDelivered, UpTo};

use dsde_values::orders_are_total;

/// A turn of a tree whose components stand in the order of their names reaches only parts of the
/// tree before it and none that it added, and each part receives what the links carry to it, up to
/// a fault.
pub fn turns_are_delivered()
    ensures { (system : System) (tree : Sim) (number time : ℕ) (items : List Item) → IsInOrder tree →
        IsDelivered system tree time (by_port (ins_of system tree) items) (turn system tree number time items).events (turn system tree number time items).end }
{
    orders_are_total();
}

/// The same of what was told of a turn: all of it, or without memory some of it from the front.
pub fn told_turns_are_delivered()
    ensures { (system : System) (tree : Sim) (number time : ℕ) (items : List Item) (old new : List Event) (result : Result Sim TurnEnd) → IsInOrder tree →
        Tells (turn system tree number time items) old new result →
        IsDelivered system tree time (by_port (ins_of system tree) items) (drop (length old) new) result }
{
    turns_are_delivered();
}

/// The same of what an engine told of its next turn with a head of the input.
pub fn advances_are_delivered()
    ensures { (system : System) (engine after : Engine) (head : Option Arrival) (old new : List Event) (result : Result Step TurnEnd) → IfSome engine.tree IsInOrder →
        IfOk result (λ step. Tells (advance system engine head) old new (Ok (step, after))) →
        IfErr result (λ end. Tells (advance system engine head) old new (Err end)) →
        IsTurnDelivered system engine head (drop (length old) new) result }
{
    turns_are_delivered();
}

/// The get events of a turn are those of its deliveries in their order, up to a fault.
pub fn turns_deliver_in_order()
    ensures { (system : System) (tree : Sim) (number time : ℕ) (items : List Item) →
        UpTo (turn system tree number time items).end (filter is_get (turn system tree number time items).events) (flat_map gets_of (deliveries system tree root time (by_port (ins_of system tree) items))) }
{}

/// Where the output message has no fault, each atomic component and each executive has one
/// delivery, in the order of their moves.
pub fn leaves_have_deliveries()
    ensures { (system : System) (tree : Sim) (time : ℕ) (got sent : Ports) → output system tree root time ≡ Ok sent →
        map (λ delivery. delivery.path) (deliveries system tree root time got) ≡ leaves_from tree root }
{}

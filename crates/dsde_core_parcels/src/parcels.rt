//! What the parcels of a turn bring to the ports of parts. Each law is a call that does nothing.

ghost use Rattle.std.specs.Prelude.{◌≡◌, ◌≤◌, ℕ, List, [], length, map, IsPermutation};
ghost use Rattle.std.specs.List.{AllByRecursion, filter, flat_map, range_with_len};
ghost use Rattle.dsde_bank.specs.declared.handle.Handle.{Handle};
ghost use Rattle.dsde_routes_wiring.specs.declared.wiring.Wiring.{Wiring};
ghost use Rattle.dsde_routes_wiring.specs.given.structure.Gather.{Translation};
ghost use Rattle.dsde_routes_wiring.specs.Sets.{Rows};
ghost use Rattle.dsde_routes_pushing.specs.Carried.{Traffic, received};
ghost use Rattle.dsde_core_parcels.specs.declared.parcel.Outlet.{Outlet};
ghost use Rattle.dsde_core_parcels.specs.declared.parcel.Parcel.{Parcel};
ghost use Rattle.dsde_core_parcels.specs.declared.inbox.Inbox.{Inbox};
ghost use Rattle.dsde_core_parcels.specs.Parcels.{AreOrdered, ArePushed};
ghost use Rattle.dsde_core_parcels.specs.Counted.{CountsRows};
ghost use Rattle.dsde_core_parcels.specs.Inboxes.{lot_of, put_lots, spread};
ghost use Rattle.dsde_core_parcels.specs.Brought.{Rise, brought};
ghost use Rattle.dsde_core_parcels.specs.Sent.{AreParcels, is_for};

use dsde_routes_pushing::push_equals_gather;

/// What the parcels for a port bring, in their order, is what the links of the wiring carry there.
pub fn parcels_are_received()
    ensures { (traffic : Traffic) (wiring : Wiring) (parcels : List Parcel) → AreParcels traffic wiring parcels → (target : Handle) (port : ℕ) →
        received traffic wiring target port ≡ flat_map (λ parcel. parcel.values) (filter (is_for target port) parcels) }
{
    push_equals_gather();
}

/// So what the inboxes of such parcels bring to a port is what the links carry there, and no two inboxes
/// are for one target.
pub fn inboxes_are_received()
    ensures brought { (traffic : Traffic) (wiring : Wiring) (parcels : List Parcel) → AreParcels traffic wiring parcels → (target : Handle) (port : ℕ) →
        received traffic wiring target port ≡ brought (put_lots [] (map lot_of parcels)) target port }
    ensures rise { (parcels : List Parcel) → AreOrdered parcels → Rise (put_lots [] (map lot_of parcels)) }
{
    parcels_are_received();
}

/// What is pushed along rows makes no more inboxes than there are rows from the ports that it comes out of.
pub fn inboxes_are_few()
    ensures { (table : Rows) (gives : Translation) (outlets : List Outlet) (pushed parcels : List Parcel) → ArePushed table gives outlets pushed → IsPermutation pushed parcels →
        (rows : ℕ) × CountsRows table outlets rows × (length (put_lots [] (map lot_of parcels)) ≤ rows) }
{}

/// An inbox, spread over the ports of its target, is what the inboxes bring there.
pub fn inboxes_are_apart()
    ensures { (inboxes : List Inbox) → Rise inboxes → AllByRecursion (λ inbox. (ports : ℕ) → spread ports inbox.gets ≡ map (brought inboxes inbox.target) (range_with_len 0 ports)) inboxes }
{}

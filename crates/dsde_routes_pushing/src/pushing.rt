//! The law of pushing. It is a call that does nothing.

ghost use Rattle.std.specs.Prelude.{◌≡◌, ℕ, true, List, [], length, slice_index_or, Contains};
ghost use Rattle.std.specs.FinSet as set;
ghost use Rattle.std.specs.List.{flat_map, AllByRecursion};
ghost use Rattle.dsde_bank.specs.declared.handle.Handle.{Handle};
ghost use Rattle.dsde_routes_wiring.specs.declared.row.Row.{Row};
ghost use Rattle.dsde_routes_wiring.specs.declared.wiring.Wiring.{Wiring};
ghost use Rattle.dsde_routes_wiring.specs.Wired.{HasOwnHandles, handles};
ghost use Rattle.dsde_routes_wiring.specs.Flatten.{flatten, rows};
ghost use Rattle.dsde_routes_pushing.specs.Carried.{Traffic, deliveries, pushed, received};
ghost use Rattle.dsde_routes_pushing.specs.Fitting.{HavePorts};
ghost use Rattle.dsde_routes_pushing.specs.Pushed.{AreRowsTo};

/// Pushing equals gathering: where no two parts of a wiring have one handle, what its links carry to a
/// port of a part is what its rows to that port push there, in the order of their rank. There is such a
/// list of rows for each port, and but one.
pub fn push_equals_gather()
    ensures pushed { (traffic : Traffic) (wiring : Wiring) → HasOwnHandles wiring → HavePorts traffic wiring → (target : Handle) (port : ℕ) (list : List Row) →
        AreRowsTo (flatten wiring) target port list → received traffic wiring target port ≡ flat_map (pushed traffic) list }
    ensures each { (traffic : Traffic) (wiring : Wiring) → HasOwnHandles wiring → HavePorts traffic wiring →
        AllByRecursion (λ delivery. (port : ℕ) (list : List Row) → AreRowsTo (flatten wiring) delivery.part port list → slice_index_or delivery.ports port [] ≡ flat_map (pushed traffic) list) (deliveries traffic wiring) }
    ensures ordered { (wiring : Wiring) → HasOwnHandles wiring → (target : Handle) (port : ℕ) → (list : List Row) × AreRowsTo (flatten wiring) target port list }
{}

/// Where no two parts have one handle, no two routes give one row: the set has as many rows as there
/// are routes.
pub fn rows_are_distinct()
    ensures { (wiring : Wiring) → HasOwnHandles wiring → set.len (flatten wiring) ≡ length (rows wiring) }
{}

/// Each row leads to a part of the wiring.
pub fn rows_lead_to_parts()
    ensures { (wiring : Wiring) (row : Row) → set.contains (flatten wiring) row ≡ true → Contains (handles wiring) row.target }
{}

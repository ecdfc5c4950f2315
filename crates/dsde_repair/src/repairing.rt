//! Rows, kept while a network changes.

ghost use Rattle.std.specs.Prelude.{◌≡◌, ◌+◌, List, [], ◌∷◌, ◌++◌, map, IsPermutation, IfOk, OnOk};
ghost use Rattle.std.specs.List.{flat_map, AllByRecursion, IsDistinct};
ghost use Rattle.dsde_repair_walks.specs.Bounds.{count};
ghost use Rattle.dsde_routes_wiring.specs.Wired.{AreWired, LeadsInside, is_same_handle};
ghost use Rattle.dsde_routes_wiring.specs.given.structure.Gather.{is_same_name};
ghost use Rattle.dsde_routes_wiring.specs.given.structure.Survival.{AreInOrder};
ghost use Rattle.dsde_routes_wiring.specs.declared.wiring.WiredKid.{WiredKid};
ghost use Rattle.dsde_routes_wiring.specs.declared.wiring.Wiring.{Wiring};
ghost use Rattle.dsde_routes_wiring.specs.declared.wiring.WiredKid.TheViews.{out-Wiring};
ghost use Rattle.dsde_routes_wiring.specs.Routes.{row_of, routes};
ghost use Rattle.dsde_routes_wiring.specs.Places.{changed, going, inside, kids_at, nets_at, renewed};
ghost use Rattle.dsde_routes_wiring.specs.Touched.{handles_of, handles_of_kid, is_touched};
ghost use Rattle.dsde_routes_wiring.specs.Flatten.{flatten};
ghost use Rattle.dsde_repair_walks.specs.Found.{InOrder, name_of};
ghost use Rattle.dsde_repair_walks.specs.Places.{IsBelowWired};
ghost use Rattle.dsde_repair.specs.Change.{LeadsThere, kids_after, rows_in, rows_out, wiring_after};

use crate::order::in_order;
use crate::parts::part;
use crate::rows::add_inside;
use crate::through::add_through;
use dsde_base::Steps;
use dsde_lists::Memory;
use dsde_repair_walks::given::routes_table::RouteTable;
use dsde_repair_walks::{insert_all, remove_all, renew, take_out};
use dsde_routes_wiring::given::structure::Link;
use dsde_routes_wiring::{Links, Row, WiredKid, Wiring};
use dsde_values::{Name, Seq};
use std::alloc::Global;
use std::mem;
use std::sync::ledger::Ledger;

/// Changes the network at a place of a wiring, and the table of the wiring's rows with it: these
/// components are gone, fresh ones come, and it gets other links. After an error the wiring and the table
/// are some wiring and some set of rows, which may not belong together.
pub fn repair<L: Ledger>(
    alloc: Global,
    table: &mut RouteTable,
    wiring: &mut Wiring,
    place: &[Name],
    gone: &[Name],
    fresh: Seq<WiredKid>,
    links: Links,
    changes: &mut Steps<L>,
) -> Result<(), Memory>
    requires table { table.old ≡ flatten wiring.old }
    requires there { LeadsThere place.now wiring.old }
    requires wired { AreWired wiring.old }
    requires gone { AreInOrder gone.now }
    requires names { IsDistinct is_same_name (map name_of (kids_after place.now gone.now fresh wiring.old)) }
    requires below { AllByRecursion IsBelowWired fresh }
    requires links { AllByRecursion LeadsInside links }
    requires distinct { IsDistinct is_same_handle (handles_of wiring.old ++ flat_map handles_of_kid fresh) }
    // Its components are then those that stay and the fresh ones, in the order of their names.
    ensures wiring { OnOk result ((kids : List WiredKid) × IsPermutation (kids_after place.now gone.now fresh wiring.old) kids × InOrder kids × (wiring.new ≡ wiring_after place.now kids links wiring.old)) }
    ensures wired { OnOk result (AreWired wiring.new) }
    ensures table { OnOk result (table.new ≡ flatten wiring.new) }
    // A change is counted for each route that the change of the network touches, before and after it.
    ensures ticks { OnOk result ((net : Wiring) → nets_at place.now wiring.old ≡ net ∷ [] →
        changes.new ≡ changes.old + count (is_touched (out-Wiring net).me (handles_of wiring.new)) (routes wiring.old) + count (is_touched (out-Wiring net).me (handles_of wiring.old)) (routes wiring.new)) }
{
    let mut old = room_for(alloc, place, wiring.links.as_slice());
    let mut new = room_for(alloc, place, links.as_slice());
    change(alloc, wiring, place, gone, fresh, links, &mut old, &mut new)?;
    remove_all(table, old.as_slice(), changes);
    insert_all(table, new, changes)
}

/// No rows, with room for those of a network at the root, if there is memory: there mostly each link is a
/// row, and the list would be moved again and again as it grows.
fn room_for(alloc: Global, place: &[Name], links: &[Link]) -> Seq<Row>
    ensures { result ≡ [] }
{
    if place.is_empty() {
        Seq::with_room(alloc, links.len()).unwrap_or(Seq::new(alloc))
    } else {
        Seq::new(alloc)
    }
}

/// Changes the network at a place of a wiring, and adds the rows that the change takes out of the wiring's
/// table to the old ones, and those that it puts in to the new ones.
fn change(
    alloc: Global,
    wiring: &mut Wiring,
    place: &[Name],
    gone: &[Name],
    mut fresh: Seq<WiredKid>,
    mut links: Links,
    old: &mut Seq<Row>,
    new: &mut Seq<Row>,
) -> Result<(), Memory>
    requires there { LeadsThere place.now wiring.old }
    requires wired { AreWired wiring.old }
    requires gone { AreInOrder gone.now }
    requires names { IsDistinct is_same_name (map name_of (kids_after place.now gone.now fresh wiring.old)) }
    requires below { AllByRecursion IsBelowWired fresh }
    requires links { AllByRecursion LeadsInside links }
    ensures wiring { OnOk result ((kids : List WiredKid) × IsPermutation (kids_after place.now gone.now fresh wiring.old) kids × InOrder kids × (wiring.new ≡ wiring_after place.now kids links wiring.old)) }
    ensures old { OnOk result (old.new ≡ old.old ++ rows_out place.now gone.now wiring.old) }
    ensures new { OnOk result (new.new ≡ new.old ++ rows_in place.now fresh wiring.new) }
{
    change_to(alloc, wiring, place, gone, &mut fresh, &mut links, old, new)
}

/// The same with fresh components and links that are taken out of what is handed in: whatever becomes of the
/// change, what is left of them is dropped in one place.
fn change_to(
    alloc: Global,
    wiring: &mut Wiring,
    place: &[Name],
    gone: &[Name],
    fresh: &mut Seq<WiredKid>,
    links: &mut Links,
    old: &mut Seq<Row>,
    new: &mut Seq<Row>,
) -> Result<(), Memory>
    requires there { LeadsThere place.now wiring.old }
    requires wired { AreWired wiring.old }
    requires gone { AreInOrder gone.now }
    requires names { IsDistinct is_same_name (map name_of (kids_after place.now gone.now fresh.old wiring.old)) }
    requires below { AllByRecursion IsBelowWired fresh.old }
    requires links { AllByRecursion LeadsInside links.old }
    ensures wiring { OnOk result ((kids : List WiredKid) × IsPermutation (kids_after place.now gone.now fresh.old wiring.old) kids × InOrder kids × (wiring.new ≡ wiring_after place.now kids links.old wiring.old)) }
    ensures old { OnOk result (old.new ≡ old.old ++ rows_out place.now gone.now wiring.old) }
    ensures new { OnOk result (new.new ≡ new.old ++ rows_in place.now fresh.old wiring.new) }
{
    add_through(alloc, wiring, true, place, old)?;
    add_inside(alloc, fresh.as_slice(), new)?;
    change_kids(alloc, wiring, place, gone, fresh, links, old)?;
    add_through(alloc, wiring, true, place, new)
}

/// Changes the network at a place of a wiring, and adds the rows inside the components that go.
fn change_kids(
    alloc: Global,
    wiring: &mut Wiring,
    place: &[Name],
    gone: &[Name],
    fresh: &mut Seq<WiredKid>,
    links: &mut Links,
    rows: &mut Seq<Row>,
) -> Result<(), Memory>
    requires there { LeadsThere place.now wiring.old }
    requires wired { AreWired wiring.old }
    requires gone { AreInOrder gone.now }
    requires names { IsDistinct is_same_name (map name_of (kids_after place.now gone.now fresh.old wiring.old)) }
    ensures wiring { OnOk result ((kids : List WiredKid) × IsPermutation (kids_after place.now gone.now fresh.old wiring.old) kids × InOrder kids × (wiring.new ≡ wiring_after place.now kids links.old wiring.old)) }
    ensures rows { OnOk result (rows.new ≡ rows.old ++ map row_of (inside (going gone.now (kids_at place.now wiring.old)))) }
{
    let kids = take_out(alloc, wiring, place)?;
    let staying = part(alloc, kids, gone, rows)?;
    let fresh = mem::replace(fresh, Seq::new(alloc));
    let links = mem::replace(links, Links::new(alloc));
    put_in_order(alloc, wiring, place, staying, fresh, links)
}

/// Gives the network at a place the components that stay and the fresh ones, in the order of their names,
/// and other links.
fn put_in_order(
    alloc: Global,
    wiring: &mut Wiring,
    place: &[Name],
    staying: Seq<WiredKid>,
    fresh: Seq<WiredKid>,
    links: Links,
) -> Result<(), Memory>
    requires wired { AreWired wiring.old }
    requires names { IsDistinct is_same_name (map name_of (staying ++ fresh)) }
    ensures { OnOk result ((kids : List WiredKid) × IsPermutation (staying ++ fresh) kids × InOrder kids × (wiring.new ≡ changed place.now (renewed links kids) wiring.old)) }
{
    let kids = in_order(alloc, staying, fresh)?;
    renew(alloc, wiring, place, links, kids)
}

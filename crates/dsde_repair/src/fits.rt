//! Whether a change of a network fits.

ghost use Rattle.std.specs.Prelude.{◌++◌, map, IfOk};
ghost use Rattle.std.specs.Bool.{OnTrue};
ghost use Rattle.std.specs.List.{flat_map, AllByRecursion, IsDistinct};
ghost use Rattle.dsde_routes_wiring.specs.given.structure.Gather.{is_same_name};
ghost use Rattle.dsde_routes_wiring.specs.given.structure.Survival.{AreInOrder};
ghost use Rattle.dsde_routes_wiring.specs.Wired.{AreWired, LeadsInside, is_same_handle};
ghost use Rattle.dsde_routes_wiring.specs.Touched.{handles_of, handles_of_kid};
ghost use Rattle.dsde_repair_walks.specs.Found.{name_of};
ghost use Rattle.dsde_routes_wiring.specs.Places.{staying};
ghost use Rattle.dsde_repair_walks.specs.Places.{IsBelowWired};
ghost use Rattle.dsde_repair.specs.Change.{LeadsThere, kids_after};

use crate::apart::are_apart;
use crate::handles::{add_beneath, add_handles};
use crate::names::{add_names, add_staying, are_different, are_in_order};
use crate::wired::{are_wired_below, is_wired, lead_inside, net_at};
use dsde_lists::Memory;
use dsde_routes_wiring::given::structure::Link;
use dsde_routes_wiring::{WiredKid, Wiring};
use dsde_values::{Name, Seq};
use std::alloc::Global;

/// Whether the handles of a wiring and of fresh components differ.
fn have_own_handles(alloc: Global, wiring: &Wiring, fresh: &[WiredKid]) -> Result<bool, Memory>
    ensures { IfOk result (λ own. OnTrue own (IsDistinct is_same_handle (handles_of wiring.now ++ flat_map handles_of_kid fresh.now))) }
{
    let mut handles = Seq::new(alloc);
    add_handles(wiring, &mut handles)?;
    add_beneath(fresh, &mut handles)?;
    are_apart(handles)
}

/// Whether the names of a network's components differ after a change.
fn have_own_names(
    alloc: Global,
    kids: &[WiredKid],
    gone: &[Name],
    fresh: &[WiredKid],
) -> Result<bool, Memory>
    requires { AreInOrder gone.now }
    ensures { IfOk result (λ own. OnTrue own (IsDistinct is_same_name (map name_of (staying gone.now kids.now ++ fresh.now)))) }
{
    let mut names = Seq::new(alloc);
    add_staying(alloc, kids, gone, &mut names)?;
    add_names(alloc, fresh, &mut names)?;
    are_different(names)
}

/// Whether a place leads to a network of a wiring, whose components differ in their names after a change.
fn fits_place(
    alloc: Global,
    wiring: &Wiring,
    place: &[Name],
    gone: &[Name],
    fresh: &[WiredKid],
) -> Result<bool, Memory>
    requires wired { AreWired wiring.now }
    requires gone { AreInOrder gone.now }
    ensures there { IfOk result (λ fits. OnTrue fits (LeadsThere place.now wiring.now)) }
    ensures names { IfOk result (λ fits. OnTrue fits (IsDistinct is_same_name (map name_of (kids_after place.now gone.now fresh.now wiring.now)))) }
{
    match net_at(wiring, place) {
        None => Ok(false),
        Some(net) => have_own_names(alloc, net.kids.as_slice(), gone, fresh),
    }
}

/// Whether `repair` can make a change of a wiring: the place leads to one of its networks, each
/// network of it and of the fresh components has its components in the order of their names and no link
/// from itself to itself, the links that it gets lead so, the names that go are in order, those of the
/// components after the change differ, and no two parts have handles of one birth.
pub fn fits_change(
    alloc: Global,
    wiring: &Wiring,
    place: &[Name],
    gone: &[Name],
    fresh: &[WiredKid],
    links: &[Link],
) -> Result<bool, Memory>
    ensures there { IfOk result (λ fits. OnTrue fits (LeadsThere place.now wiring.now)) }
    ensures wired { IfOk result (λ fits. OnTrue fits (AreWired wiring.now)) }
    ensures gone { IfOk result (λ fits. OnTrue fits (AreInOrder gone.now)) }
    ensures names { IfOk result (λ fits. OnTrue fits (IsDistinct is_same_name (map name_of (kids_after place.now gone.now fresh.now wiring.now)))) }
    ensures below { IfOk result (λ fits. OnTrue fits (AllByRecursion IsBelowWired fresh.now)) }
    ensures links { IfOk result (λ fits. OnTrue fits (AllByRecursion LeadsInside links.now)) }
    ensures distinct { IfOk result (λ fits. OnTrue fits (IsDistinct is_same_handle (handles_of wiring.now ++ flat_map handles_of_kid fresh.now))) }
{
    if !is_wired(alloc, wiring)? || !are_wired_below(alloc, fresh)? {
        return Ok(false);
    }
    if !are_in_order(gone) || !lead_inside(links) {
        return Ok(false);
    }
    if !have_own_handles(alloc, wiring, fresh)? {
        return Ok(false);
    }
    fits_place(alloc, wiring, place, gone, fresh)
}

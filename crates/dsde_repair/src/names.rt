//! Names in their order, and names that differ.

ghost use Rattle.std.specs.Prelude.{◌≡◌, [], ◌∷◌, ◌++◌, map, IfOk, OnOk};
ghost use Rattle.std.specs.Bool.{OnTrue};
ghost use Rattle.std.specs.List.{IsDistinct};
ghost use Rattle.dsde_routes_wiring.specs.given.structure.Gather.{is_same_name};
ghost use Rattle.dsde_routes_wiring.specs.given.structure.Survival.{AreInOrder};
ghost use Rattle.dsde_routes_wiring.specs.Places.{staying};
ghost use Rattle.dsde_repair_walks.specs.Found.{name_of};
ghost use Rattle.dsde_repair.specs.Rising.{IsBefore};

use dsde_lists::Memory;
use dsde_repair_walks::is_among;
use dsde_routes_wiring::WiredKid;
use dsde_values::{Name, Seq, compare_names};
use std::alloc::Global;
use std::cmp::Ordering;

/// Whether a name comes before the first of these, if there is one.
fn is_before(name: &Name, names: &[Name]) -> bool
    ensures { OnTrue result (IsBefore name.now names.now) }
{
    match names.first() {
        None => true,
        Some(next) => match compare_names(name, next) {
            Ordering::Less => true,
            Ordering::Equal | Ordering::Greater => false,
        },
    }
}

/// Whether names are in their order, each once.
pub fn are_in_order(names: &[Name]) -> bool
    ensures { OnTrue result (AreInOrder names.now) }
{
    for (index, name) in names.iter().enumerate() {
        if !is_before(name, &names[index + 1..]) {
            return false;
        }
    }
    true
}

/// Whether names differ.
pub fn are_different(names: Seq<Name>) -> Result<bool, Memory>
    ensures { IfOk result (λ different. OnTrue different (IsDistinct is_same_name names)) }
{
    let mut names = names.into_vec();
    names.sort_by(|name: &Name, other: &Name| compare_names(name, other))?;
    Ok(are_in_order(names.as_slice()))
}

/// Adds the names of components.
pub fn add_names(alloc: Global, kids: &[WiredKid], names: &mut Seq<Name>) -> Result<(), Memory>
    ensures { OnOk result (names.new ≡ names.old ++ map name_of kids.now) }
{
    for kid in kids {
        names.push(kid.name.copy(alloc)?)?;
    }
    Ok(())
}

/// Adds the names of those that stay.
pub fn add_staying(
    alloc: Global,
    kids: &[WiredKid],
    gone: &[Name],
    names: &mut Seq<Name>,
) -> Result<(), Memory>
    requires { AreInOrder gone.now }
    ensures { OnOk result (names.new ≡ names.old ++ map name_of (staying gone.now kids.now)) }
{
    for kid in kids {
        add_staying_one(alloc, kid, gone, names)?;
    }
    Ok(())
}

/// Adds the name of one, if it stays.
fn add_staying_one(
    alloc: Global,
    kid: &WiredKid,
    gone: &[Name],
    names: &mut Seq<Name>,
) -> Result<(), Memory>
    requires { AreInOrder gone.now }
    ensures { OnOk result (names.new ≡ names.old ++ map name_of (staying gone.now (kid.now ∷ []))) }
{
    if is_among(kid, gone) {
        return Ok(());
    }
    names.push(kid.name.copy(alloc)?)
}

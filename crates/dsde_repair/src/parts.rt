//! Components that stay, and the rows inside those that go.

ghost use Rattle.std.specs.Prelude.{◌≡◌, [], ◌∷◌, ◌++◌, map, IfOk, OnOk};
ghost use Rattle.std.specs.List.{AllByRecursion};
ghost use Rattle.dsde_routes_wiring.specs.given.structure.Survival.{AreInOrder};
ghost use Rattle.dsde_routes_wiring.specs.Places.{going, inside, staying};
ghost use Rattle.dsde_routes_wiring.specs.Routes.{row_of};
ghost use Rattle.dsde_repair_walks.specs.Places.{IsBelowWired};

use crate::rows::add_kid;
use dsde_lists::Memory;
use dsde_repair_walks::is_among;
use dsde_routes_wiring::{Row, WiredKid};
use dsde_values::{Name, Seq};
use std::alloc::Global;

/// The components whose names are not among these; the rows inside the others are added.
pub fn part(
    alloc: Global,
    kids: Seq<WiredKid>,
    gone: &[Name],
    rows: &mut Seq<Row>,
) -> Result<Seq<WiredKid>, Memory>
    requires gone { AreInOrder gone.now }
    requires wired { AllByRecursion IsBelowWired kids }
    ensures staying { IfOk result (λ kept. kept ≡ staying gone.now kids) }
    ensures rows { OnOk result (rows.new ≡ rows.old ++ map row_of (inside (going gone.now kids))) }
{
    let mut kept = Seq::new(alloc);
    for kid in kids.into_vec() {
        part_one(alloc, kid, gone, &mut kept, rows)?;
    }
    Ok(kept)
}

/// Adds a component to those that stay, or the rows inside it.
fn part_one(
    alloc: Global,
    kid: WiredKid,
    gone: &[Name],
    kept: &mut Seq<WiredKid>,
    rows: &mut Seq<Row>,
) -> Result<(), Memory>
    requires gone { AreInOrder gone.now }
    requires wired { IsBelowWired kid }
    ensures staying { OnOk result (kept.new ≡ kept.old ++ staying gone.now (kid ∷ [])) }
    ensures rows { OnOk result (rows.new ≡ rows.old ++ map row_of (inside (going gone.now (kid ∷ [])))) }
{
    if is_among(&kid, gone) {
        return add_kid(alloc, &kid, rows);
    }
    kept.push(kid)
}

/// Components behind others.
pub fn together(kids: Seq<WiredKid>, more: Seq<WiredKid>) -> Result<Seq<WiredKid>, Memory>
    ensures { IfOk result (λ all. all ≡ kids ++ more) }
{
    let mut all = kids.into_vec();
    let mut behind = more.into_vec();
    all.append(&mut behind)?;
    Ok(Seq::from_vec(all))
}

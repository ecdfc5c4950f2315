//! The laws of routes.

ghost use Rattle.std.specs.Prelude.{◌≡◌, ℕ, ◌+◌, ◌≤◌, List, [], ◌∷◌, ◌++◌, ◌&&◌, ◌||◌, not, map, length};
ghost use Rattle.std.specs.FinSet as set;
ghost use Rattle.std.specs.List.{flat_map, AllByRecursion};
ghost use Rattle.dsde_values.specs.declared.name.Name.{Name};
ghost use Rattle.dsde_routes_wiring.specs.given.structure.plan_Link.{Link};
ghost use Rattle.dsde_routes_wiring.specs.declared.row.Row.{Row};
ghost use Rattle.dsde_routes_wiring.specs.declared.wiring.WiredKid.{WiredKid};
ghost use Rattle.dsde_routes_wiring.specs.declared.wiring.WiredKid.TheViews.{out-Wiring};
ghost use Rattle.dsde_routes_wiring.specs.declared.wiring.Wiring.{Wiring};
ghost use Rattle.dsde_routes_wiring.specs.Routes.{Ways, Route, routed, own, row_of, routes, routes_in};
ghost use Rattle.dsde_routes_wiring.specs.Places.{changed, going, inside, left, nets_at, renewed, staying, through, touched};
ghost use Rattle.dsde_routes_wiring.specs.Touched.{handles_of, handles_of_kid, is_touched};
ghost use Rattle.dsde_routes_wiring.specs.Rows.{among, is_same_row};
ghost use Rattle.dsde_routes_wiring.specs.Gathered.{gathered};
ghost use Rattle.dsde_repair_walks.specs.Bounds.{AreDistinct, AreNamed, count, counted};
ghost use Rattle.dsde_repair_walks.specs.Weights.{weight};
ghost use Rattle.dsde_routes_wiring.specs.Flatten.{flatten, rows};
ghost use Rattle.dsde_routes_wiring.specs.Wired.{AreWired, LeadsInside};

use dsde_values::orders_are_total;

/// The routes of a wiring are those that a change of the network at a place touches, and those that it
/// leaves, before the change and after it.
pub fn a_change_leaves_the_others()
    ensures before { (g : Route → ℕ) (net : Ways) (place : List Name) (gone : List Name) (wiring here : Wiring) → nets_at place wiring ≡ here ∷ [] →
        weight g (routes_in net wiring) ≡ weight g (touched net place (going gone (out-Wiring here).kids) wiring) + weight g (left net place (staying gone (out-Wiring here).kids) wiring) }
    ensures after { (g : Route → ℕ) (net : Ways) (place : List Name) (links : List Link) (kids stay fresh : List WiredKid) (wiring here : Wiring) → nets_at place wiring ≡ here ∷ [] →
        ((h : WiredKid → ℕ) → weight h kids ≡ weight h fresh + weight h stay) →
        weight g (routes_in net (changed place (renewed links kids) wiring)) ≡ weight g (touched net place fresh (changed place (renewed links kids) wiring)) + weight g (left net place stay wiring) }
{}

/// A change touches no route but over a link of the changed network, or of a component that only one of
/// the two wirings has, where all handles are distinct.
pub fn a_change_touches_few()
    ensures before { (net : Ways) (place : List Name) (gone : List Name) (links : List Link) (kids fresh : List WiredKid) (wiring here : Wiring) → nets_at place wiring ≡ here ∷ [] →
        ((h : WiredKid → ℕ) → weight h kids ≡ weight h fresh + weight h (staying gone (out-Wiring here).kids)) → AreDistinct (handles_of wiring ++ flat_map handles_of_kid fresh) →
        length (touched net place (going gone (out-Wiring here).kids) wiring) ≤ count (is_touched (out-Wiring here).me (handles_of (changed place (renewed links kids) wiring))) (routes_in net wiring) }
    ensures after { (net : Ways) (place : List Name) (gone : List Name) (links : List Link) (kids fresh : List WiredKid) (wiring here : Wiring) → nets_at place wiring ≡ here ∷ [] →
        ((h : WiredKid → ℕ) → weight h kids ≡ weight h fresh + weight h (staying gone (out-Wiring here).kids)) → AreDistinct (handles_of wiring ++ flat_map handles_of_kid fresh) →
        length (touched net place fresh (changed place (renewed links kids) wiring)) ≤ count (is_touched (out-Wiring here).me (handles_of wiring)) (routes_in net (changed place (renewed links kids) wiring)) }
{}

/// And it touches all of these: where the root's own ports are sources and targets, the routes that it
/// touches are as many as those over a link of the changed network, or with a source or a target that only
/// one of the two wirings has.
pub fn a_change_touches_these()
    ensures before { (place : List Name) (gone : List Name) (links : List Link) (kids fresh : List WiredKid) (wiring here : Wiring) → nets_at place wiring ≡ here ∷ [] →
        ((h : WiredKid → ℕ) → weight h kids ≡ weight h fresh + weight h (staying gone (out-Wiring here).kids)) → AreDistinct (handles_of wiring ++ flat_map handles_of_kid fresh) →
        length (touched (own (out-Wiring wiring).me) place (going gone (out-Wiring here).kids) wiring) ≡ count (is_touched (out-Wiring here).me (handles_of (changed place (renewed links kids) wiring))) (routes wiring) }
    ensures after { (place : List Name) (gone : List Name) (links : List Link) (kids fresh : List WiredKid) (wiring here : Wiring) → nets_at place wiring ≡ here ∷ [] →
        ((h : WiredKid → ℕ) → weight h kids ≡ weight h fresh + weight h (staying gone (out-Wiring here).kids)) → AreDistinct (handles_of wiring ++ flat_map handles_of_kid fresh) →
        length (touched (own (out-Wiring wiring).me) place fresh (changed place (renewed links kids) wiring)) ≡ count (is_touched (out-Wiring here).me (handles_of wiring)) (routes (changed place (renewed links kids) wiring)) }
{}

/// Routes that are put together where they cross over are those that are gathered from their targets.
pub fn routes_are_gathered()
    ensures { (g : Route → ℕ) (wiring : Wiring) → weight g (routes wiring) ≡ weight g (gathered wiring) }
{}

/// Where handles are distinct, and names in each network, no two routes are one row; and the rows after a
/// change are those that pass the place, those inside components that came, and those before that neither
/// passed there nor lay in components that went.
pub fn rows_follow_a_change()
    ensures once { (wiring : Wiring) → AreNamed wiring → AreDistinct (handles_of wiring) → (row : Row) → weight (λ route. counted (is_same_row row) (row_of route)) (routes wiring) ≤ 1 }
    ensures rows { (place : List Name) (gone : List Name) (links : List Link) (kids fresh : List WiredKid) (wiring here : Wiring) → nets_at place wiring ≡ here ∷ [] →
        ((h : WiredKid → ℕ) → weight h kids ≡ weight h fresh + weight h (staying gone (out-Wiring here).kids)) → AreNamed wiring → AreDistinct (handles_of wiring ++ flat_map handles_of_kid fresh) → (row : Row) →
        among (routed (changed place (renewed links kids) wiring)) row
        ≡ among (map row_of (through (own (out-Wiring wiring).me) place (changed place (renewed links kids) wiring))) row
        || (among (map row_of (inside fresh)) row
        || (among (routed wiring) row && not (among (map row_of (through (own (out-Wiring wiring).me) place wiring)) row) && not (among (map row_of (inside (going gone (out-Wiring here).kids))) row))) }
{}

/// Where names are distinct in each network, and no link leads from the root's own ports to them, the rows
/// of a wiring are those of its routes, each as often; and so the set of its rows has those of its routes.
pub fn rows_are_routes()
    ensures sets { (wiring : Wiring) → AreWired wiring → (row : Row) → set.contains (flatten wiring) row ≡ among (routed wiring) row }
    ensures rows { (g : Row → ℕ) (wiring : Wiring) → AreNamed wiring → AllByRecursion LeadsInside (out-Wiring wiring).links → weight g (rows wiring) ≡ weight g (routed wiring) }
{
    orders_are_total();
}

/// Where names are distinct in each network, and no link leads from the root's own ports to them, and where
/// all handles are distinct, a wiring has as many rows as routes.
pub fn rows_are_counted()
    ensures { (wiring : Wiring) → AreWired wiring → AreDistinct (handles_of wiring) → set.len (flatten wiring) ≡ length (routes wiring) }
{}

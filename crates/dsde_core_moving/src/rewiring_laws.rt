//! What a wiring keeps, and how it changes at one place. Each law is a call that does nothing.

ghost use Rattle.std.specs.Prelude.{◌≡◌, ◌≤◌, ◌++◌, ℕ, [], ◌∷◌, List, Option, Some, map};
ghost use Rattle.std.specs.List.{flat_map, AllByRecursion, IsDistinct};
ghost use Rattle.dsde_bank.specs.declared.handle.Handle.{Handle};
ghost use Rattle.dsde_values.specs.declared.name.Name.{Name};
ghost use Rattle.dsde_values.specs.declared.path.Path.{Path};
ghost use Rattle.dsde_values.specs.Path.{root};
ghost use Rattle.dsde_syntax.specs.declared.decl.Model.{Model};
ghost use Rattle.dsde_structure.specs.declared.plan.Link.{Link};
ghost use Rattle.dsde_grove.specs.Grove.{Grove, IsTree, value_of};
ghost use Rattle.dsde_sim_tree.specs.declared.sim.Sim.{Sim};
ghost use Rattle.dsde_sim_tree.specs.Tree.{entry_of};
ghost use Rattle.dsde_sim_starting.specs.Fitting.{FitsKid, FitsTree};
ghost use Rattle.dsde_routes_wiring.specs.declared.wiring.Wiring.{Wiring};
ghost use Rattle.dsde_routes_wiring.specs.declared.wiring.WiredKid.{WiredKid};
ghost use Rattle.dsde_routes_wiring.specs.declared.wiring.WiredKid.TheViews.{out-Wiring};
ghost use Rattle.dsde_routes_wiring.specs.Places.{nets_at};
ghost use Rattle.dsde_routes_wiring.specs.Touched.{handles_of, handles_of_kid};
ghost use Rattle.dsde_routes_wiring.specs.Wired.{is_same_handle, AreWired};
ghost use Rattle.dsde_repair.specs.Change.{wiring_after};
ghost use Rattle.dsde_repair_walks.specs.Places.{IsBelowWired};
ghost use Rattle.dsde_core_moves.specs.given.core_flat.spot_Spot.{Spot};
ghost use Rattle.dsde_core_moves.specs.given.core_flat.Change.{found, wired_with, wiring_of};
ghost use Rattle.dsde_core_moves.specs.given.core_flat.Handles.{KidsAreThemselves};
ghost use Rattle.dsde_core_moves.specs.given.core_flat.Named.{AreToldApart, HasOwnNames, KidHasOwnNames};
ghost use Rattle.dsde_core_moves.specs.given.core_flat.Places.{places_of};
ghost use Rattle.dsde_core_moves.specs.given.core_flat.Shown.{part_under};
ghost use Rattle.dsde_core_moves.specs.given.core_flat.Stands.{HasBirth, StandsAt, StandsFor};
ghost use Rattle.dsde_core_moves.specs.Chosen.{shown};

/// Where a wiring shows a tree that fits a program, each of its networks has its components in the order of
/// their names, and no link from itself to itself; and so have those beneath components that show what fits.
pub fn fitting_trees_are_wired()
    ensures wiring { (model : Model) (own : Grove Spot) (top : Handle) (wiring : Wiring) → FitsTree model (part_under (value_of own) top (Some wiring)) → AreWired wiring }
    ensures kids { (model : Model) (own : Grove Spot) (kids : List WiredKid) → AllByRecursion (FitsKid model) (shown own kids) → AllByRecursion IsBelowWired kids }
{}

/// Where names lead to one network of a wiring, it is the one at that place, and with other components and
/// links there the wiring is the one that has another network there.
pub fn wirings_change_alike()
    ensures there { (names : List Name) (top handle : Handle) (path : Path) (wiring net : Wiring) → found names top root (Some wiring) ≡ record { handle = handle; path = path; own = Some net } ∷ [] → nets_at names wiring ≡ net ∷ [] }
    ensures alike { (names : List Name) (top handle : Handle) (path : Path) (wiring net : Wiring) (kids : List WiredKid) (links : List Link) → found names top root (Some wiring) ≡ record { handle = handle; path = path; own = Some net } ∷ [] →
        Some (wiring_after names kids links wiring) ≡ wired_with names (λ was. Some (wiring_of (out-Wiring net).me (out-Wiring net).boss links kids)) (Some wiring) }
{}

/// The parts of a tree that lies in a grove have handles that differ, from each other and from those of
/// components that were born after them.
pub fn handles_are_apart()
    ensures { (old new : Grove Spot) (top : Handle) (wiring : Wiring) (tree : Sim) (path : Path) (fresh : List WiredKid) → StandsFor old top (Some wiring) tree → HasOwnNames tree → IsTree old →
        AllByRecursion (StandsAt new) (places_of path fresh) → KidsAreThemselves fresh → AreToldApart (map entry_of (shown new fresh)) → AllByRecursion KidHasOwnNames (shown new fresh) →
        ((birth : ℕ) → HasBirth birth (places_of path fresh) → old.next_birth ≤ birth) → IsDistinct is_same_handle (handles_of wiring ++ flat_map handles_of_kid fresh) }
{}

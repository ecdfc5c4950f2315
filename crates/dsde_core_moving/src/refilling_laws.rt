//! What a change of a network's structure tells, and what it comes to. Each law is a call that does nothing.

ghost use Rattle.std.specs.Prelude.{◌≡◌, ◌+◌, ◌++◌, ℕ, List, [], map, IsPermutation};
ghost use Rattle.dsde_values.specs.declared.path.Path.{Path};
ghost use Rattle.dsde_sim_tree.specs.given.formalism.System.{System};
ghost use Rattle.dsde_structure.specs.declared.plan.Entry.{Entry};
ghost use Rattle.dsde_structure.specs.Survival.{fresh, AreInOrder, IsInOrder};
ghost use Rattle.dsde_sim_tree.specs.Told.{told, telling, ◌then◌};
ghost use Rattle.dsde_sim_tree.specs.declared.sim.Kid.{Kid};
ghost use Rattle.dsde_sim_tree.specs.Tree.{entry_of, name_of, parts_of_kids, started_as};
ghost use Rattle.dsde_sim_tree.specs.Start.{start, starts};
ghost use Rattle.dsde_sim_tree.specs.Move.{change, drop_of, gone, kept, left_behind};
ghost use Rattle.dsde_core_moving.specs.Placed.{placed};

/// Where a structure changes, those that do not survive are dropped, then a component starts for each entry
/// as which none survives, in the order of the entries; and each entry has its survivor, or the one that has
/// started for it.
pub fn changes_start_the_fresh()
    ensures { (system : System) (entries : List Entry) (kids : List Kid) (path : Path) (time room : ℕ) → IsInOrder entries →
        change system entries kids path time room ≡ telling (map (drop_of path) (gone entries kids)) (
        starts (start system (left_behind path)) (fresh (map entry_of kids) entries) path time (room + parts_of_kids (gone entries kids)) [] then (λ all.
        told [] (placed entries (kept entries kids) all.0, all.1))) }
{}

/// Survivors and those that have started, in the order of their names, are the components that a change comes
/// to.
pub fn changed_kids_stand_in_order()
    ensures { (entries : List Entry) (kids news all : List Kid) → IsInOrder entries → IsInOrder (map entry_of kids) → map entry_of news ≡ map started_as (fresh (map entry_of kids) entries) →
        IsPermutation (kept entries kids ++ news) all → AreInOrder (map name_of all) → all ≡ placed entries (kept entries kids) news }
{}

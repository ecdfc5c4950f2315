//! A law of trees that lie in a grove. It is a call that does nothing.

ghost use Rattle.std.specs.Prelude.{◌≤◌, Option};
ghost use Rattle.dsde_bank.specs.declared.handle.Handle.{Handle};
ghost use Rattle.dsde_grove.specs.Grove.{Grove};
ghost use Rattle.dsde_sim_tree.specs.declared.sim.Sim.{Sim};
ghost use Rattle.dsde_sim_tree.specs.declared.sim.TheConstants.{DEEPEST};
ghost use Rattle.dsde_sim_movers.specs.Stands.{depth};
ghost use Rattle.dsde_routes_wiring.specs.declared.wiring.Wiring.{Wiring};
ghost use Rattle.dsde_core_flat.specs.declared.spot.Spot.{Spot};
ghost use Rattle.dsde_core_flat.specs.Stands.{StandsFor, IsShallow};

/// In a grove that stands for a tree whose parts are no deeper than may be, no path has more names.
pub fn paths_are_short()
    ensures { (own : Grove Spot) (top : Handle) (wiring : Option Wiring) (tree : Sim) → StandsFor own top wiring tree → depth tree ≤ DEEPEST → IsShallow own }
{}

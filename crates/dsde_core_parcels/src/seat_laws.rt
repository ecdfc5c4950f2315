//! A law of those who live in a grove. It is a call that does nothing.

ghost use Rattle.std.specs.Prelude.{◌≡◌, Option, Some};
ghost use Rattle.dsde_bank.specs.declared.handle.Handle.{Handle};
ghost use Rattle.dsde_syntax.specs.declared.decl.Model.{Model};
ghost use Rattle.dsde_sim_tree.specs.given.formalism.leaf_Leaf.{Leaf};
ghost use Rattle.dsde_core_moves.specs.given.system.Fitting.{FitsLeaf};
ghost use Rattle.dsde_core_moves.specs.given.grove.Grove.{Grove, value_of};
ghost use Rattle.dsde_sim_tree.specs.declared.sim.Sim.{Sim};
ghost use Rattle.dsde_core_moves.specs.given.sim_starting.Fitting.{FitsTree};
ghost use Rattle.dsde_routes_pushing.specs.given.sim_movers.Names.{IsNamed};
ghost use Rattle.dsde_routes_wiring.specs.declared.wiring.Wiring.{Wiring};
ghost use Rattle.dsde_core_moves.specs.given.core_flat.spot_Spot.{Spot};
ghost use Rattle.dsde_core_moves.specs.given.core_flat.spot_Spot_TheVariants as variant;
ghost use Rattle.dsde_core_moves.specs.given.core_flat.Stands.{StandsFor};

/// Each component and each executive that lives in a grove, which stands for a tree of the program, is one
/// of the program.
pub fn live_leaves_fit()
    ensures { (model : Model) (own : Grove Spot) (top : Handle) (wiring : Option Wiring) (tree : Sim) → StandsFor own top wiring tree → IsNamed tree → FitsTree model tree →
        (handle : Handle) (leaf : Leaf) → value_of own handle ≡ Some (variant.Leaf leaf) → FitsLeaf model leaf }
{}

//! What the definition of a structure's plan keeps. Each law is a call that does nothing.

ghost use Rattle.std.specs.Prelude.{◌≡◌, ℕ, List, Ok};
ghost use Rattle.dsde_structure.specs.given.syntax.item_Item.{Item};
ghost use Rattle.dsde_structure.specs.declared.plan.Plan.{Plan};
ghost use Rattle.dsde_structure.specs.given.language.DeclaredStructures.{Place};
ghost use Rattle.dsde_structure.specs.given.language.Meaning.{Function, Vars};
ghost use Rattle.dsde_executive_plans.specs.Layout.{structure};
ghost use Rattle.dsde_structure.specs.Survival.{IsInOrder};

use dsde_values::orders_are_total;

/// The components of a plan stand in the order of their names, which are distinct.
pub fn plans_are_in_order()
    ensures { (place : Place) (functions : List Function) (items : List Item) (number : ℕ) (vars : Vars) (plan : Plan) →
        structure place functions items number vars ≡ Ok plan → IsInOrder plan.entries }
{
    orders_are_total();
}

//! What components are called.

ghost use Rattle.std.specs.Prelude.{◌≡◌, ℕ, Bool, true, false, List, Ok};
ghost use Rattle.std.specs.List.{AllByRecursion, list_all};
ghost use Rattle.dsde_values.specs.Path.{EXEC};
ghost use Rattle.dsde_sound_expressions.specs.given.syntax.item_Item.{Item};
ghost use Rattle.dsde_executive_plans.specs.given.structure.plan_Plan.{Plan};
ghost use Rattle.dsde_sound_expressions.specs.given.language.DeclaredStructures.{Place};
ghost use Rattle.dsde_sound_expressions.specs.given.language.Meaning.{Function, Vars};
ghost use Rattle.dsde_executive_plans.specs.Layout.{structure};
ghost use Rattle.dsde_executive_plans.specs.given.structure.Gather.{is_same_name};
ghost use Rattle.dsde_sound_expressions.specs.Items.{is_proper_item};
ghost use Rattle.dsde_sound_names.specs.Called.{called_so};

use dsde_values::one_name;

/// Where the name of each component of a structure's items passes a test, so does the name of each
/// component of its plan.
pub fn plans_are_called_so()
    ensures { (test : List ℕ → Bool) (place : Place) (functions : List Function) (items : List Item) (number : ℕ) (vars : Vars) (plan : Plan) →
        list_all (called_so test) items ≡ true → structure place functions items number vars ≡ Ok plan → AllByRecursion (λ entry. test entry.name.stem ≡ true) plan.entries }
{}

/// No component of a plan of a structure that a text can spell is named as an executive.
pub fn plans_are_ordinary()
    ensures { (place : Place) (functions : List Function) (items : List Item) (number : ℕ) (vars : Vars) (plan : Plan) →
        list_all is_proper_item items ≡ true → structure place functions items number vars ≡ Ok plan → AllByRecursion (λ entry. is_same_name EXEC entry.name ≡ false) plan.entries }
{
    one_name();
    plans_are_called_so();
}

//! A law of translations. It is a call that does nothing.

ghost use Rattle.std.specs.Prelude.{◌≡◌, Some};
ghost use Rattle.dsde_sim_tree.specs.given.syntax.decl_Model.{Model};
ghost use Rattle.dsde_values.specs.declared.types.Ty.{Ty};
ghost use Rattle.dsde_values.specs.declared.value.Value.{Value};
ghost use Rattle.dsde_sim_tree.specs.given.language.DeclaredModels.{types_of};
ghost use Rattle.dsde_sim_tree.specs.given.language.Right.{IsRight};
ghost use Rattle.dsde_sim_tree.specs.given.structure.plan_Via.{Via};
ghost use Rattle.dsde_sim_tree.specs.given.language.Typed.{Typed};
ghost use Rattle.dsde_system.specs.Plans.{Takes};
ghost use Rattle.dsde_system.specs.Program.{system};

use dsde_sound_names::given::sound_expressions::{
    expressions_agree, functions_agree, known_is_within,
};

/// Where nothing is wrong in a model, what a translation makes of a value of the type that it takes, if it
/// is anything, has the type that it gives.
pub fn translations_keep_types()
    ensures { (model : Model) (via : Via) (from to : Ty) (own made : Value) → IsRight model → Takes model via from to → Typed (types_of model) from own → (system model).translate via own ≡ Some made → Typed (types_of model) to made }
{
    expressions_agree();
    known_is_within();
    functions_agree();
}

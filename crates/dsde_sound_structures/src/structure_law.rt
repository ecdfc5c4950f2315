//! A law of the structures of a model.

ghost use Rattle.dsde_sound_structures.specs.Agreement.{StructuresAgree};

use dsde_sound_names::given::executive_plans::plans_are_in_order;
use dsde_sound_names::given::sound_expressions::{
    expressions_agree, functions_agree, known_is_within, models_are_known,
};
use dsde_sound_names::plans_are_ordinary;

/// A law: the structure of a network in which nothing is wrong gives in tables the plan that it gives
/// over names, never stuck, and a plan that fits the network.
pub fn structures_agree()
    ensures { StructuresAgree }
{
    expressions_agree();
    functions_agree();
    known_is_within();
    models_are_known();
    plans_are_in_order();
    plans_are_ordinary();
}

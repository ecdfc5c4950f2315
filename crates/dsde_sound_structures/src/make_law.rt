//! Laws of the expressions of a structure.

ghost use Rattle.dsde_sound_structures.specs.Spots.{MakesStand, SpotsMayEval};

use dsde_sound_names::given::sound_expressions::{
    expressions_agree, functions_agree, known_is_within, structures_stand,
};

/// A law: in the tables of a model in which nothing is wrong the items of a network's structure have
/// the numbers of its expressions in text order, and each expression stands at its number, over the
/// names that it sees: an index as a whole number, a condition as a truth, and each other as of its type.
pub fn makes_stand()
    ensures { MakesStand }
{
    expressions_agree();
    functions_agree();
    known_is_within();
    structures_stand();
}

/// A law: an expression that stands at its number may be evaluated by it, over any values of the types
/// of what it sees.
pub fn spots_may_be_evaluated()
    ensures { SpotsMayEval }
{}

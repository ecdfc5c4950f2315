//! Laws of components, of structures and of the model that runs. Each is a call that does nothing.

ghost use Rattle.dsde_sound_structures.specs.Sure.{ComponentsAreSure, StructuresAreSure, TopIsSure};

use crate::{structures_agree, top_is_declared};
use dsde_sound_names::given::sound_expressions::{
    blocks_agree, bodies_stand, expressions_agree, functions_agree, known_is_within,
    structures_stand, tops_stand,
};

/// A law: of each component of a model in which nothing is wrong the start, the advance, the output
/// and the transitions come to values that fit it, or to faults.
pub fn components_are_sure()
    ensures { ComponentsAreSure }
{
    expressions_agree();
    blocks_agree();
    functions_agree();
    known_is_within();
    bodies_stand();
}

/// A law: of each network of such a model the structure comes to a plan that fits it, or to a fault.
pub fn structures_are_sure()
    ensures { StructuresAreSure }
{
    structures_agree();
    structures_stand();
}

/// A law: the `top` of such a model comes to arguments of the model that it names, or to a fault.
pub fn top_is_sure()
    ensures { TopIsSure }
{
    expressions_agree();
    functions_agree();
    known_is_within();
    tops_stand();
    top_is_declared();
}

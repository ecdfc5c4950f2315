//! Laws of where the parts of a model stand.

ghost use Rattle.dsde_sound_expressions.specs.Laws.{BodiesStand, KnownIsWithin, TopsStand};
ghost use Rattle.dsde_sound_expressions.specs.Structures.{ModelsAreKnown, StructuresStand};

use crate::{shaped_is_proper, shaped_items_are_proper};

/// A law: what is known at a place of a model in which nothing is wrong is known of its whole file.
pub fn known_is_within()
    ensures { KnownIsWithin }
{}

/// A law: each atomic model and each network of a model in which nothing is wrong has its body and
/// what it declares at its number, and each part of the body stands at its number in the tables.
pub fn bodies_stand()
    ensures { BodiesStand }
{
    shaped_is_proper();
}

/// A law: the `top` of a model in which nothing is wrong names an atomic model or a network by its
/// number, and its arguments stand at their numbers, each of its parameter's type.
pub fn tops_stand()
    ensures { TopsStand }
{
    shaped_is_proper();
}

/// A law: the structure of each network of a model in which nothing is wrong stands at its number:
/// its items in the tables, and the texts of its translations among those of the file.
pub fn structures_stand()
    ensures { StructuresStand }
{
    shaped_is_proper();
    shaped_items_are_proper();
}

/// A law: the models of a file in which nothing is wrong are known at each place of it, and are what
/// their declarations say: their parameters' types, and ports whose names differ.
pub fn models_are_known()
    ensures { ModelsAreKnown }
{
    shaped_is_proper();
}

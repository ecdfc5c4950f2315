//! Laws of models that a text can spell.

ghost use Rattle.dsde_sound_expressions.specs.IsProper.{ShapedIsProper};
ghost use Rattle.dsde_sound_expressions.specs.Items.{ShapedItemsAreProper};

/// A law: in a model that a text can spell, numbers are of 63 bits, each sign and each builtin is
/// one of its level, and no name is the word `elapsed`.
pub fn shaped_is_proper()
    ensures { ShapedIsProper }
{}

/// A law: so it is in the structures of its networks.
pub fn shaped_items_are_proper()
    ensures { ShapedItemsAreProper }
{}

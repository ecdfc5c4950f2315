//! How a program is written in an image. Each law is a call that does nothing.

ghost use Rattle.dsde_image_rows.specs.Named.{NamesAreAllowed};
ghost use Rattle.dsde_image_rows.specs.Script.{ArgsReadAgain, ComponentsAreCalled, NamesAreAscii, ScriptsAreExact, StatesReadAgain, TextsAreAscii};

use dsde_sound_expressions::{
    expressions_agree, functions_agree, known_is_within, structures_stand,
};
use dsde_sound_structures::given::input_records::value_is_spelled;
use dsde_sound_structures::given::sound_names::plans_are_called_so;
use dsde_sound_structures::{names_are_words, types_are_lawful};

/// Texts that spell values of a program are the texts of these, and arguments and states that fit are
/// read again from their texts.
pub fn scripts_are_exact()
    ensures exact { ScriptsAreExact }
    ensures args { ArgsReadAgain }
    ensures states { StatesReadAgain }
{
    value_is_spelled();
    types_are_lawful();
}

/// The names of models are ASCII, and so are the texts of values that have their types.
pub fn texts_are_ascii()
    ensures names { NamesAreAscii }
    ensures values { TextsAreAscii }
{
    names_are_words();
}

/// The components of each structure of a program are called by identifiers.
pub fn components_are_called()
    ensures { ComponentsAreCalled }
{
    plans_are_called_so();
}

/// The name of each component of each plan of a program has an identifier that is no word of the
/// language, and its index, where it has one, is below 2^63.
pub fn names_are_allowed()
    ensures { NamesAreAllowed }
{
    expressions_agree();
    functions_agree();
    known_is_within();
    structures_stand();
}

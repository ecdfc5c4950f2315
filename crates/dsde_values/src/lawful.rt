//! Lawful tables of types.

ghost use Rattle.std.specs.Prelude.{◌≡◌, ◌↔◌, IsTrue};
ghost use Rattle.std.specs.List.{list_all, list_any};
ghost use Rattle.std.specs.Str.{bytes_eq};
ghost use Rattle.dsde_words.specs.Words.{is_word};
ghost use Rattle.dsde_values.specs.Value.{IsLawful, is_lawful_def, is_lawful_shape, are_distinct};

use crate::{Def, Shape, Types};
use dsde_lists::Text;
use dsde_words::is_word;

/// Whether a table is lawful: its definitions have identifiers as names, and the variants of each
/// enum are distinct identifiers.
pub fn is_lawful(types: &Types) -> bool
    ensures { IsTrue result ↔ IsLawful types.now }
{
    types.defs.iter().all(is_lawful_def)
}

fn is_lawful_def(def: &Def) -> bool
    ensures { result ≡ is_lawful_def def.now }
{
    is_word(def.name.as_slice()) && is_lawful_shape(&def.shape)
}

fn is_lawful_shape(shape: &Shape) -> bool
    ensures { result ≡ is_lawful_shape shape.now }
{
    match shape {
        Shape::Enum(variants) => {
            are_identifiers(variants.as_slice()) && are_distinct(variants.as_slice())
        }
        Shape::Rec(_) => true,
    }
}

fn are_identifiers(names: &[Text]) -> bool
    ensures { result ≡ list_all is_word names.now }
{
    names.iter().all(|name| is_word(name.as_slice()))
}

/// Whether no name stands twice in a list.
fn are_distinct(names: &[Text]) -> bool
    ensures { result ≡ are_distinct names.now }
{
    for index in 0..names.len() {
        if contains(&names[index + 1..], names[index].as_slice()) {
            return false;
        }
    }
    true
}

/// Whether a name stands in a list.
fn contains(names: &[Text], name: &[u8]) -> bool
    ensures { result ≡ list_any (λ other. bytes_eq other name.now) names.now }
{
    names.iter().any(|other| other.as_slice() == name)
}

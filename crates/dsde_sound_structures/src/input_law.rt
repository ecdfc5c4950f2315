//! Laws of the types, of the ports and of the models of a file.

ghost use Rattle.dsde_sound_structures.specs.Lawful.{ModelsAreNamed, PortsAreLawful, TopIsDeclared, TypesAreLawful, TypesAreNamed};

use dsde_sound_names::given::sound_expressions::tops_stand;

/// A law: in a model in which nothing is wrong each type's name is an identifier, and an enum's
/// variants are distinct identifiers.
pub fn types_are_lawful()
    ensures { TypesAreLawful }
{}

/// A law: of each model of a file in which nothing is wrong the in ports are at most 2^32, and their
/// names are distinct identifiers.
pub fn ports_are_lawful()
    ensures { PortsAreLawful }
{}

/// A law: the model that runs is one of the atomic models and networks that the file declares.
pub fn top_is_declared()
    ensures { TopIsDeclared }
{
    tops_stand();
}

/// A law: in a model in which nothing is wrong the names of types, of their variants and fields, and
/// those of atomic models and networks are identifiers.
pub fn names_are_words()
    ensures types { TypesAreNamed }
    ensures models { ModelsAreNamed }
{}

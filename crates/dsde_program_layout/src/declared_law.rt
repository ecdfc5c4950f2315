//! Laws of what a model is resolved to.

ghost use Rattle.dsde_program_layout.specs.Declared.{InfosAreDeclared, TopIsNamed};

/// A law: the model that runs is the one that `top` names.
pub fn top_is_named()
    ensures { TopIsNamed }
{}

/// A law: what each atomic model and each network declares is what its declaration says.
pub fn infos_are_declared()
    ensures { InfosAreDeclared }
{}

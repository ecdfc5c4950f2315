//! A law: no two shaped models have the same tokens.

ghost use Rattle.std.specs.Prelude.{◌≡◌};
ghost use Rattle.dsde_syntax.specs.declared.decl.Model.{Model};
ghost use Rattle.dsde_syntax.specs.Grammar.{tokens_of};
ghost use Rattle.dsde_syntax.specs.Shape.{IsShaped};

/// A law: at most one shaped model has given tokens.
pub fn one_model()
    ensures { (first other : Model) → IsShaped first → IsShaped other → tokens_of first ≡ tokens_of other → first ≡ other }
{}

//! A law: no model in which nothing is wrong has too many conditions open.

ghost use Rattle.std.specs.Prelude.{ℕ, ◌≤◌, take};
ghost use Rattle.dsde_syntax.specs.declared.decl.Model.{Model};
ghost use Rattle.dsde_syntax.specs.Grammar.{tokens_of};
ghost use Rattle.dsde_language.specs.Right.{IsRight};
ghost use Rattle.dsde_parser.specs.Depth.{open_after};

/// A law: at each place of a model in which nothing is wrong at most 512 conditions are open. So
/// the limit on open conditions, which keeps the parser from going too deep, refuses no model that
/// the rules accept.
pub fn right_models_are_shallow()
    ensures { (model : Model) → IsRight model → (n : ℕ) → (open_after (take n (tokens_of model))).conditions ≤ 512 }
{}

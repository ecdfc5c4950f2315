//! Laws on where the steps of the grammar stop.

ghost use Rattle.std.specs.Prelude.{◌≡◌, ℕ, Some, None, All, take, true};
ghost use Rattle.dsde_syntax.specs.Spelling.{IsToken};
ghost use Rattle.dsde_syntax.specs.Grammar.{Tokens, tokens_of};
ghost use Rattle.dsde_syntax.specs.Levels.{has_levels};
ghost use Rattle.dsde_syntax.specs.declared.decl.Model.{Model};
ghost use Rattle.dsde_parser_grammar.specs.Steps.{start, stop};
ghost use Rattle.dsde_parser_grammar.specs.Begins.{BeginsOne, IsFirstWrong, IsGrammatical};

/// A law: the steps of the grammar stop at no token of a model whose nodes stand in their levels,
/// and want nothing more at its end.
pub fn models_pass()
    ensures { (model : Model) → has_levels model ≡ true → stop start 0 (tokens_of model) ≡ None }
{}

/// A law: the tokens before the one that cannot come begin a list of the grammar, and a list in
/// which each token can come, and nothing more is wanted at its end, is one.
pub fn what_came_begins_a_model()
    ensures begins { (tokens : Tokens) (at : ℕ) → All IsToken tokens → stop start 0 tokens ≡ Some at → BeginsOne (take at tokens) }
    ensures whole { (tokens : Tokens) → All IsToken tokens → stop start 0 tokens ≡ None → IsGrammatical tokens }
{}

/// A law: where the steps of the grammar stop, there is the first thing that is wrong.
pub fn stops_are_first_wrong()
    ensures { (tokens : Tokens) (at : ℕ) → All IsToken tokens → stop start 0 tokens ≡ Some at → IsFirstWrong tokens at }
{}

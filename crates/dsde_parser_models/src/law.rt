//! A law: tokens of the grammar are those of a shaped model.

ghost use Rattle.std.specs.Prelude.{◌≡◌, ◌<◌, ◌^◌, length};
ghost use Rattle.dsde_syntax.specs.declared.decl.Model.{Model};
ghost use Rattle.dsde_syntax.specs.Grammar.{Tokens, tokens_of};
ghost use Rattle.dsde_syntax.specs.Shape.{IsShaped};
ghost use Rattle.dsde_parser_grammar.specs.Begins.{IsGrammatical};

/// A law: tokens of the grammar, of which there are fewer than 2^32, are those of a shaped model:
/// the places in a model can be laid anew, each at the index of its token.
pub fn grammatical_tokens_have_a_model()
    ensures { (tokens : Tokens) → IsGrammatical tokens → length tokens < 2 ^ 32 → (model : Model) × IsShaped model × (tokens_of model ≡ tokens) }
{}

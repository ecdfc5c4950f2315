//! A law: the text of a model is cut into the model's own tokens.

ghost use Rattle.std.specs.Prelude.{◌≡◌, ◌≤◌, length, map, IsOkAnd};
ghost use Rattle.dsde_syntax.specs.declared.token.Token.{Token};
ghost use Rattle.dsde_syntax.specs.declared.decl.Model.{Model};
ghost use Rattle.dsde_syntax.specs.Grammar.{tokens_of};
ghost use Rattle.dsde_syntax.specs.Print.{text_of};
ghost use Rattle.dsde_syntax.specs.Shape.{IsShaped};
ghost use Rattle.dsde_lexer.specs.Tokens.{tokens};

/// A law: the text of a shaped model is cut into the model's own tokens, where it is short enough
/// to be cut.
pub fn printed_tokens()
    ensures { (model : Model) → IsShaped model → length (text_of model) ≤ 1048576 → IsOkAnd (tokens (text_of model)) (λ list. map (λ (token : Token). token.tok) list ≡ tokens_of model) }
{}

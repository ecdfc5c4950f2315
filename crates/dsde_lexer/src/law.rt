//! A law: what the cutting of a text comes to.

ghost use Rattle.std.specs.Prelude.{◌≡◌, ◌≢◌, ◌≤◌, ◌<◌, ℕ, List, length, All, Ok, Err};
ghost use Rattle.dsde_syntax.specs.declared.token.Token.{Token};
ghost use Rattle.dsde_syntax.specs.Spelling.{HasToken};
ghost use Rattle.dsde_lexer.specs.declared.lexer.LexError.TheVariants as lex_error;
ghost use Rattle.dsde_lexer.specs.Tokens.{tokens};

/// A law: the tokens of a text are well formed and no more than its bytes may be; only a text that
/// is too long has none for that, and no text has none for want of memory.
pub fn texts_are_cut()
    ensures well_formed { (bytes : List ℕ) (cut : List Token) → tokens bytes ≡ Ok cut → All HasToken cut }
    ensures few { (bytes : List ℕ) (cut : List Token) → tokens bytes ≡ Ok cut → length cut ≤ 1_048_576 }
    ensures too_long { (bytes : List ℕ) → tokens bytes ≡ Err lex_error.TooLong → 1_048_576 < length bytes }
    ensures no_memory { (bytes : List ℕ) → tokens bytes ≢ Err lex_error.Memory }
{}

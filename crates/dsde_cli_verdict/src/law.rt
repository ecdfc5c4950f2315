//! Laws: a text has one verdict.

ghost use Rattle.std.specs.Prelude.{◌≡◌, ℕ, List, Result};
ghost use Rattle.dsde_syntax.specs.declared.decl.Model.{Model};
ghost use Rattle.dsde_cli_verdict.specs.declared.refusal.ReadModel.{ReadModel};
ghost use Rattle.dsde_cli_verdict.specs.Verdict.{IsVerdict};

use dsde_lexer::texts_are_cut;
use dsde_parser_grammar::{one_model, stops_are_first_wrong, what_came_begins_a_model};
use dsde_parser_models::grammatical_tokens_have_a_model;

/// A law: no text has two verdicts. It is not accepted and refused, it is no two models, and it is
/// not refused for two things or at two places.
pub fn one_verdict()
    ensures { (bytes : List ℕ) → (one : Result Model ReadModel) → (other : Result Model ReadModel)
        → IsVerdict bytes one → IsVerdict bytes other → one ≡ other }
{
    one_model();
}

/// A law: each text has a verdict. It is accepted, or it is refused for something at a place of it,
/// or it is too long.
pub fn each_text_has_a_verdict()
    ensures { (bytes : List ℕ) → (verdict : Result Model ReadModel) × IsVerdict bytes verdict }
{
    texts_are_cut();
    what_came_begins_a_model();
    stops_are_first_wrong();
    grammatical_tokens_have_a_model();
}

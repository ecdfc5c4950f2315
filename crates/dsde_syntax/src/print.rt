//! The text of a model.

ghost use Rattle.std.specs.Prelude.{◌≡◌, ◌++◌, codes, IfOk, OnOk};
ghost use Rattle.std.specs.List.{join_by};
ghost use Rattle.dsde_syntax.specs.Print.{tok_text, text_of};

use crate::writer::tokens_of;
use crate::{Memory, Model, Tok, Word};
use dsde_lists::append_decimal;
use std::alloc::Global;

/// The text of a model: its tokens joined by single spaces and ended by a line feed.
pub fn print_model(alloc: Global, model: &Model) -> Result<Word, Memory>
    ensures { IfOk result (λ text. text ≡ text_of model.now) }
{
    let tokens = tokens_of(alloc, model)?;
    let mut text = Word::new(alloc);
    write_tokens(&mut text, tokens.as_slice())?;
    text.push(b'\n')?;
    Ok(text)
}

/// Adds tokens to a text, with single spaces between them.
fn write_tokens(text: &mut Word, tokens: &[Tok]) -> Result<(), Memory>
    ensures { OnOk result (text.new ≡ text.old ++ join_by tok_text (codes " ") tokens.now) }
{
    let Some((first, rest)) = tokens.split_first() else {
        return Ok(());
    };
    write_token(text, first)?;
    for token in rest {
        text.push(b' ')?;
        write_token(text, token)?;
    }
    Ok(())
}

/// Adds a token to a text, a number without leading zeros.
fn write_token(text: &mut Word, token: &Tok) -> Result<(), Memory>
    ensures { OnOk result (text.new ≡ text.old ++ tok_text token.now) }
{
    match token {
        Tok::Key(word) => text.extend_from_slice(word.text().as_bytes()),
        Tok::Sign(sign) => text.extend_from_slice(sign.text().as_bytes()),
        Tok::Ident(name) => text.extend_from_slice(name.as_slice()),
        Tok::Int(value) => append_decimal(*value, text),
    }
}

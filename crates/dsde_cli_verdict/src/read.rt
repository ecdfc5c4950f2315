//! Models read from their texts.

ghost use Rattle.std.specs.Prelude.{◌≡◌, ◌≢◌, ◌≤◌, ◌⊎◌, length, All, Ok, Err, IfOk, IfErr, Result};
ghost use Rattle.dsde_syntax.specs.declared.decl.Model.{Model};
ghost use Rattle.dsde_syntax.specs.Spelling.{HasToken};
ghost use Rattle.dsde_lexer.specs.Lines.{place_of};
ghost use Rattle.dsde_lexer.specs.Tokens.{tokens as tokens_of_text};
ghost use Rattle.dsde_cli_verdict.specs.Stop.{StopsFor};
ghost use Rattle.dsde_cli_verdict.specs.Verdict.{Accepts, IsSound, IsVerdict, place_at, toks_of};

use crate::law::one_verdict;
use crate::place::line_column;
use crate::{ReadModel, Refusal};
use dsde_check::{CheckError, check};
use dsde_lexer::{LexError, Places, lex, texts_are_cut};
use dsde_parser::{ParseError, parse};
use dsde_syntax::{Model, Token};
use std::alloc::Global;

/// The model of a text that is accepted, or the one refusal of the text.
pub fn read_model(alloc: Global, bytes: &[u8]) -> Result<Model, ReadModel>
    ensures accepted { IfOk result (Accepts bytes.now) }
    ensures refused { IfErr result (λ error. error ≢ ReadModel.Memory → IsVerdict bytes.now (Err error)) }
    ensures only { (verdict : Result Model ReadModel) → IsVerdict bytes.now verdict
        → (result ≡ verdict) ⊎ (result ≡ Err ReadModel.Memory) }
{
    // A law: a text has one verdict.
    one_verdict();
    let tokens = match lex(alloc, bytes) {
        Ok(tokens) => tokens,
        Err(error) => return Err(unlexed(bytes, error)),
    };
    match read_tokens(alloc, tokens.as_slice()) {
        Ok(model) => Ok(model),
        Err(Stop::At(kind, at)) => Err(at_token(alloc, bytes, tokens.as_slice(), kind, at)),
        Err(Stop::Memory) => Err(ReadModel::Memory),
    }
}

/// Why tokens give no model in which nothing is wrong.
#[derive(Clone, Copy)]
enum Stop {
    /// The kind, and its place, which is the index of a token.
    At(Refusal, u32),
    Memory,
}

/// The model of tokens, where nothing is wrong in it.
fn read_tokens(alloc: Global, tokens: &[Token]) -> Result<Model, Stop>
    requires few { length tokens.now ≤ 1_048_576 }
    requires well_formed { All HasToken tokens.now }
    ensures sound { IfOk result (IsSound (toks_of tokens.now)) }
    ensures stopped { IfErr result (StopsFor (toks_of tokens.now)) }
{
    let model = match parse(alloc, tokens) {
        Ok(model) => model,
        Err(ParseError::Syntax(at)) => return Err(Stop::At(Refusal::Syntax, at)),
        Err(ParseError::Nested(at)) => return Err(Stop::At(Refusal::Nested, at)),
        Err(ParseError::Memory) => return Err(Stop::Memory),
    };
    match check(alloc, &model) {
        Ok(()) => Ok(model),
        Err(CheckError::Wrong(kind, at)) => Err(Stop::At(Refusal::Check(kind), at)),
        Err(CheckError::Memory) => Err(Stop::Memory),
    }
}

/// Why a text has no tokens.
fn unlexed(bytes: &[u8], error: LexError) -> ReadModel
    requires { error ≢ LexError.Memory → tokens_of_text bytes.now ≡ Err error }
    ensures { result ≢ ReadModel.Memory → IsVerdict bytes.now (Err result) }
{
    // A law: only a text that is too long has no tokens for that.
    texts_are_cut();
    match error {
        LexError::TooLong => ReadModel::TooLong,
        LexError::BadByte(offset) => at_byte(bytes, Refusal::BadByte, offset),
        LexError::BadNumber(offset) => at_byte(bytes, Refusal::BadNumber, offset),
        LexError::Memory => ReadModel::Memory,
    }
}

/// A refusal for what stands at a byte.
fn at_byte(bytes: &[u8], kind: Refusal, offset: u32) -> ReadModel
    requires { length bytes.now ≤ 1_048_576 }
    ensures { result ≡ ReadModel.Refused kind (place_at bytes.now offset).0 (place_at bytes.now offset).1 }
{
    let (line, column) = line_column(bytes, offset);
    ReadModel::Refused { kind, line, column }
}

/// A refusal for what stands at a token, or at their end.
fn at_token(alloc: Global, bytes: &[u8], tokens: &[Token], kind: Refusal, at: u32) -> ReadModel
    requires few { length tokens.now ≤ 1_048_576 }
    requires lexed { tokens_of_text bytes.now ≡ Ok tokens.now }
    ensures { (result ≡ ReadModel.Memory)
        ⊎ (result ≡ ReadModel.Refused kind (place_of bytes.now tokens.now at).0 (place_of bytes.now tokens.now at).1) }
{
    match Places::new(alloc, bytes, tokens) {
        Ok(places) => {
            let (line, column) = places.line_column(at.min(tokens.len() as u32));
            ReadModel::Refused { kind, line, column }
        }
        Err(_) => ReadModel::Memory,
    }
}

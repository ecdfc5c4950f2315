//! A text, cut into tokens.

ghost use Rattle.std.specs.Prelude.{◌≡◌, ◌≢◌, ◌≤◌, ◌<◌, length, take_while, All, IfOk, IfErr, Ok, Err, SomeIff};
ghost use Rattle.std.specs.Char.{is_ascii_digit};
ghost use Rattle.std.specs.Str.Parse.{AllDigits, digits_value};
ghost use Rattle.dsde_words.specs.Words.{is_word_byte};
ghost use Rattle.dsde_syntax.specs.Spelling.{HasToken};
ghost use Rattle.dsde_lexer.specs.Tokens.{AreInOrder, tokens, front_of, word_piece, number_piece, sign_piece, is_in_comment};

use dsde_syntax::{GREATEST_NUMBER, Items, Key, Memory, Sign, Tok, Token, Word};
use dsde_words::{is_word_byte, word_size};
use std::alloc::Global;

/// Why a text has no tokens. Each place is the offset of a byte.
#[derive(Clone, Copy)]
pub enum LexError {
    /// More than 1,048,576 bytes.
    TooLong,
    /// No token begins with this byte, and it separates none.
    BadByte(u32),
    /// A number begins here that is past 2^63 - 1, or that a letter or `_` follows directly.
    BadNumber(u32),
    Memory,
}

impl From<Memory> for LexError {
    ghost use Rattle.std.specs.Prelude.{◌≡◌};
    ghost use Rattle.dsde_lexer.specs.declared.lexer.LexError.TheVariants as lex_error;

    ghost from_gives = { λ _ error. error ≡ lex_error.Memory };

    fn from(_error: Memory) -> LexError {
        LexError::Memory
    }
}

/// What stands at the front of a text.
#[derive(Drop)]
enum Front {
    /// Bytes that separate tokens: a blank, or a comment up to its line feed.
    Gap,
    Token(Tok),
    /// No token begins here.
    BadByte,
    /// A number begins here that is none.
    BadNumber,
}

/// The most bytes that a text may have.
const LONGEST_TEXT: usize = 1_048_576;

/// The tokens of a text in their order, each with where it stands, or the first offence against
/// their rules. `TooLong` comes first, exactly for more than 1,048,576 bytes.
pub fn lex(alloc: Global, bytes: &[u8]) -> Result<Items<Token>, LexError>
    ensures ok { IfOk result (λ list. tokens bytes.now ≡ Ok list) }
    ensures refused { IfErr result (λ error. error ≢ LexError.Memory → tokens bytes.now ≡ Err error) }
    ensures well_formed { IfOk result (All HasToken) }
    ensures few { IfOk result (λ list. length list ≤ 1_048_576) }
    ensures in_order { IfOk result (AreInOrder 0 (length bytes.now)) }
{
    if bytes.len() > LONGEST_TEXT {
        return Err(LexError::TooLong);
    }
    let mut tokens = Items::new(alloc);
    let mut at = 0;
    while at < bytes.len() {
        let (front, size) = read_front(alloc, &bytes[at..])?;
        match front {
            Front::Gap => {}
            Front::Token(tok) => tokens.push(Token {
                tok,
                from: at as u32,
                to: (at + size) as u32,
            })?,
            Front::BadByte => return Err(LexError::BadByte(at as u32)),
            Front::BadNumber => return Err(LexError::BadNumber(at as u32)),
        }
        at += size;
    }
    Ok(tokens)
}

/// The one piece at the front of a text that is not empty, and how many bytes it has.
fn read_front(alloc: Global, text: &[u8]) -> Result<(Front, usize), Memory>
    requires { 0 < length text.now }
    ensures piece { IfOk result (λ piece. piece ≡ front_of text.now) }
    ensures some { IfOk result (λ piece. 0 < piece.1) }
    ensures within { IfOk result (λ piece. piece.1 ≤ length text.now) }
{
    match text[0] {
        b' ' | b'\t' | b'\r' | b'\n' => Ok((Front::Gap, 1)),
        b'#' => Ok((Front::Gap, comment_size(text))),
        b'0'..=b'9' => Ok(read_number(text)),
        byte if is_word_byte(byte) => read_word(alloc, text),
        _ => Ok(read_sign(text)),
    }
}

/// The longest word at the front of a text.
fn read_word(alloc: Global, text: &[u8]) -> Result<(Front, usize), Memory>
    ensures piece { IfOk result (λ piece. piece ≡ word_piece text.now) }
{
    let size = word_size(text);
    let word = &text[..size];
    let tok = match Key::of_text(word) {
        Some(key) => Tok::Key(key),
        None => Tok::Ident(Word::from_slice(alloc, word)?),
    };
    Ok((Front::Token(tok), size))
}

/// The longest number at the front of a text.
#[tactic(auto, using(crate::proofs::Digits::digits_front))]
fn read_number(text: &[u8]) -> (Front, usize)
    ensures { result ≡ number_piece text.now }
{
    let size = digits_size(text);
    let ends = text.get(size).is_none_or(|next| !is_word_byte(*next));
    match number_of(&text[..size]) {
        Some(value) if ends => (Front::Token(Tok::Int(value)), size),
        _ => (Front::BadNumber, size),
    }
}

/// The longest sign at the front of a text.
#[tactic(auto, using(crate::proofs::SignLemmas::signs))]
fn read_sign(text: &[u8]) -> (Front, usize)
    requires { 0 < length text.now }
    ensures piece { result ≡ sign_piece text.now }
    ensures some { 0 < result.1 }
    ensures within { result.1 ≤ length text.now }
{
    match Sign::at_front(text) {
        Some(sign) => (Front::Token(Tok::Sign(sign)), sign.text().len()),
        None => (Front::BadByte, 1),
    }
}

/// The number that decimal digits write, if it is at most the greatest.
#[tactic(auto, using(crate::proofs::Digits::digit_step))]
fn number_of(digits: &[u8]) -> Option<u64>
    requires { AllDigits 10 digits.now }
    ensures { SomeIff result (digits_value 10 digits.now ≤ GREATEST_NUMBER) (digits_value 10 digits.now) }
{
    let mut value: u64 = 0;
    for digit in digits {
        value = value
            .saturating_mul(10)
            .saturating_add(u64::from(digit - b'0'));
    }
    (value <= GREATEST_NUMBER).then_some(value)
}

/// How many bytes of a text stand before its first line feed.
fn comment_size(text: &[u8]) -> usize
    ensures size { result ≡ length (take_while is_in_comment text.now) }
    ensures within { result ≤ length text.now }
{
    text.iter().take_while(|byte| **byte != b'\n').count()
}

/// How many digits a text begins with.
fn digits_size(text: &[u8]) -> usize
    ensures size { result ≡ length (take_while is_ascii_digit text.now) }
    ensures within { result ≤ length text.now }
{
    text.iter().take_while(|byte| byte.is_ascii_digit()).count()
}

//! How many brackets and conditions are open behind some tokens.

ghost use Rattle.std.specs.Prelude.{◌≡◌, ◌<◌, ◌↔◌, ◌++◌, ◌∷◌, [], IsTrue, IfOk, OnOk, map, MatchOption};
ghost use Rattle.dsde_syntax.specs.declared.token.Token.{Token};
ghost use Rattle.dsde_parser.specs.Depth.{opened, behind_sign, behind_key, behind_name, behind_brace, behind_colon, conditions_after, conditions_behind, with_bracket, without_bracket, innermost, brackets_after, last_of_key, last_of_sign, none_open, IsWithin, IsShallow, IsFirstDeep};

use dsde_syntax::{Items, Key, Memory, Sign, Tok, Token};
use std::alloc::Global;

/// The most brackets that may be open.
const MOST_BRACKETS: usize = 256;

/// The most conditions that may be open.
const MOST_CONDITIONS: usize = 512;

/// What the last tokens are, as far as they say what a sign behind them is.
#[derive(Clone, Copy)]
pub enum Last {
    /// `list`, `opt`, `none` or `empty`: a `<` is the bracket of a type.
    TypeWord,
    New,
    /// `new` and a name: a `{` is that of a record.
    RecordName,
    /// `else`: a `{` is that of the last arm.
    Else,
    /// `{` or `,`.
    Start,
    /// `{` or `,`, and a name: a `:` is that of a field.
    FieldName,
    Other,
}

impl Last {
    /// What the last tokens are behind a name more.
    fn behind_name(self) -> Last
        ensures { result ≡ behind_name self }
    {
        match self {
            Last::New => Last::RecordName,
            Last::Start => Last::FieldName,
            _ => Last::Other,
        }
    }
}

/// What is open behind some tokens. The brackets are `( [ {`, and the `<` of a type, which stands
/// behind `list`, `opt`, `none` or `empty`. A condition is open from its `if` to the `{` of its
/// arm, in a comprehension to the `:`.
#[derive(Drop)]
pub struct Open {
    /// For each bracket that is open, the innermost last, how many conditions were open behind it.
    pub brackets: Items<usize>,
    /// How many of the brackets are `<` of types.
    pub angles: usize,
    pub conditions: usize,
    pub last: Last,
}

impl Open {
    /// Nothing is open.
    pub fn nothing(alloc: Global) -> Open
        ensures { result ≡ none_open }
    {
        Open {
            brackets: Items::new(alloc),
            angles: 0,
            conditions: 0,
            last: Last::Other,
        }
    }

    /// Whether no more is open than may be.
    pub fn is_within(&self) -> bool
        ensures { IsTrue result ↔ IsWithin self.now }
    {
        self.brackets.len() <= MOST_BRACKETS && self.conditions <= MOST_CONDITIONS
    }

    /// Goes past a token.
    pub fn pass(&mut self, tok: &Tok) -> Result<(), Memory>
        requires angles { self.old.angles < usize.MAX }
        requires conditions { self.old.conditions < usize.MAX }
        ensures { OnOk result (self.new ≡ opened self.old tok.now) }
    {
        match tok {
            Tok::Sign(sign) => self.pass_sign(*sign)?,
            Tok::Key(key) => self.pass_key(*key),
            Tok::Ident(_) => self.last = self.last.behind_name(),
            Tok::Int(_) => self.last = Last::Other,
        }
        Ok(())
    }

    /// Goes past a reserved word.
    fn pass_key(&mut self, key: Key)
        requires conditions { self.old.conditions < usize.MAX }
        ensures { self.new ≡ behind_key self.old key }
    {
        if let Key::If = key {
            self.conditions += 1;
        }
        self.last = last_of_key(key);
    }

    /// Goes past a sign.
    fn pass_sign(&mut self, sign: Sign) -> Result<(), Memory>
        requires angles { self.old.angles < usize.MAX }
        ensures { OnOk result (self.new ≡ behind_sign self.old sign) }
    {
        self.conditions = self.conditions_after(sign);
        match sign {
            Sign::OpenParen | Sign::OpenBracket | Sign::OpenBrace => {
                self.brackets.push(self.conditions)?;
            }
            Sign::CloseParen | Sign::CloseBracket | Sign::CloseBrace => self.close(),
            Sign::Less if matches!(self.last, Last::TypeWord) => {
                self.brackets.push(self.conditions)?;
                self.angles += 1;
            }
            Sign::Greater if self.angles > 0 => {
                self.close();
                self.angles -= 1;
            }
            _ => {}
        }
        self.last = last_of_sign(sign);
        Ok(())
    }

    /// Closes the innermost bracket that is open.
    fn close(&mut self)
        ensures { self.new ≡ record self.old { brackets = without_bracket self.old.brackets } }
    {
        self.brackets
            .truncate(self.brackets.len().saturating_sub(1));
    }

    /// How many conditions are open behind a sign.
    fn conditions_after(&self, sign: Sign) -> usize
        ensures { result ≡ conditions_after self.now sign }
    {
        match (sign, self.last) {
            (Sign::OpenBrace, Last::RecordName | Last::Else) => self.conditions,
            (Sign::OpenBrace, _) => self.conditions.saturating_sub(1),
            (Sign::Colon, Last::FieldName) => self.conditions,
            (Sign::Colon, _) => self.innermost(),
            _ => self.conditions,
        }
    }

    /// How many conditions were open behind the innermost bracket that is open.
    fn innermost(&self) -> usize
        ensures { result ≡ innermost self.now.brackets }
    {
        let at = self.brackets.len().saturating_sub(1);
        self.brackets.get(at).copied().unwrap_or(0)
    }
}

/// What the last tokens are where a reserved word is the last.
fn last_of_key(key: Key) -> Last
    ensures { result ≡ last_of_key key }
{
    match key {
        Key::List | Key::Opt | Key::NoneOf | Key::EmptyOf => Last::TypeWord,
        Key::New => Last::New,
        Key::Else => Last::Else,
        _ => Last::Other,
    }
}

/// What the last tokens are where a sign is the last.
fn last_of_sign(sign: Sign) -> Last
    ensures { result ≡ last_of_sign sign }
{
    match sign {
        Sign::OpenBrace | Sign::Comma => Last::Start,
        _ => Last::Other,
    }
}

/// The index of the first token behind which too many brackets or conditions are open.
pub fn first_too_deep(alloc: Global, tokens: &[Token]) -> Result<Option<usize>, Memory>
    ensures { let toks = map (λ (token : Token). token.tok) tokens.now in
        IfOk result (λ deep. MatchOption deep (IsShallow toks) (λ index. IsFirstDeep toks index)) }
{
    let mut open = Open::nothing(alloc);
    for (index, token) in tokens.iter().enumerate() {
        open.pass(&token.tok)?;
        if !open.is_within() {
            return Ok(Some(index));
        }
    }
    Ok(None)
}

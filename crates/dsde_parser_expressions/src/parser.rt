//! A parser, and what it reads of words, signs, names and types.

ghost use Rattle.std.specs.Option.{is_some};
ghost use Rattle.std.specs.Prelude.{IfErr, Err, None, false, ◌≡◌, ◌<◌, ◌+◌, ◌^◌, ◌∷◌, IfOk, true, [], map, MatchOption, length};
ghost use Rattle.dsde_syntax.specs.Grammar.{id_tokens, type_tokens, in_angles};
ghost use Rattle.dsde_syntax.specs.Levels.{is_builtin, is_comparison, is_sum_sign, is_mul_sign};
ghost use Rattle.dsde_syntax.specs.Places.{id_span, type_span, bracketed};
ghost use Rattle.dsde_syntax.specs.declared.token.Token.{Token};
ghost use Rattle.dsde_syntax.specs.declared.token.Tok.TheVariants as tok;
ghost use Rattle.dsde_words.specs.declared.key.Key.TheVariants as key;
ghost use Rattle.dsde_syntax.specs.declared.token.Sign.TheVariants as sign;
ghost use Rattle.dsde_parser_grammar.specs.Want as want;
ghost use Rattle.dsde_parser_grammar.specs.Steps.{angles, is_key, is_sign, is_name, is_number, factor_step, term_step, comparison_step};
ghost use Rattle.dsde_parser_expressions.specs.Follows.{Meets, next_is, second_is, is_else_if, is_builtin_key, goes};
ghost use Rattle.dsde_parser_expressions.specs.Took.{Took, TookOne, Takes, Reads, Any};

mod expr;

use dsde_syntax::{Boxed, Expr, Id, Key, Memory, Sign, Tok, Token, TypeName, Word};
use std::alloc::Global;
use std::marker::Model;

/// Why tokens give no model. Each place is the index of a token, or the number of the tokens for
/// the end of the text.
#[derive(Clone, Copy)]
pub enum ParseError {
    /// No model has a token like this here.
    Syntax(u32),
    /// More than 256 brackets, or more than 512 conditions, are open here.
    Nested(u32),
    Memory,
}

impl From<Memory> for ParseError {
    ghost use Rattle.std.specs.Prelude.{◌≡◌};
    ghost use Rattle.dsde_parser_expressions.specs.declared.parser.ParseError.TheVariants as parse_error;

    ghost from_gives = { λ _ error. error ≡ parse_error.Memory };

    fn from(_error: Memory) -> ParseError {
        ParseError::Memory
    }
}

/// Reads the parts of a model from the front of the tokens that are left.
#[derive(Drop)]
pub struct Parser<'a> {
    alloc: Global,
    left: &'a [Token],
    /// The index of the next token.
    at: u32,
}

impl<'a> Model for Parser<'a> {
    ghost use Rattle.std.specs.Prelude.{ℕ, List, map, length, ◌+◌, ◌<◌, ◌^◌};
    ghost use Rattle.dsde_syntax.specs.declared.token.Tok.{Tok};
    ghost use Rattle.dsde_syntax.specs.declared.token.Token.{Token};

    ghost Value = { ℕ × List Tok };

    ghost view = { λ parser. (parser.at, map (λ (token : Token). token.tok) parser.left.now) };

    ghost invariant = { λ parser. parser.at + length parser.left.now < 2 ^ 32 };
}

impl<'a> Parser<'a> {
    /// A parser at the first token.
    pub fn new(alloc: Global, tokens: &'a [Token]) -> Parser<'a>
        requires { length tokens.now < 2 ^ 32 }
        ensures { result ≡ (0, map (λ (token : Token). token.tok) tokens.now) }
    {
        Parser {
            alloc,
            left: tokens,
            at: 0,
        }
    }

    /// What the parts that are read are made with.
    pub fn alloc(&self) -> Global {
        self.alloc
    }

    /// The index of the next token.
    pub fn at(&self) -> u32
        ensures { result ≡ self.now.0 }
    {
        self.at
    }

    /// No model has the next token here.
    pub(crate) fn refuse<T: Drop>(&self) -> Result<T, ParseError>
        ensures { result ≡ Err (ParseError.Syntax self.now.0) }
    {
        Err(ParseError::Syntax(self.at))
    }

    /// An expression on the heap.
    pub(crate) fn boxed(&self, expr: Expr) -> Result<Boxed<Expr>, ParseError>
        ensures own { IfOk result (λ own. own ≡ expr) }
        ensures memory { IfErr result (λ error. error ≡ ParseError.Memory) }
    {
        Ok(Boxed::new(self.alloc, expr)?)
    }

    /// Whether a token is left.
    pub fn has_more(&self) -> bool
        ensures { result ≡ next_is (λ t. true) self.now.1 }
    {
        matches!(self.left, [_, ..])
    }

    /// Whether a reserved word comes next.
    pub fn next_is_key(&self, key: Key) -> bool
        ensures { result ≡ next_is (is_key key) self.now.1 }
    {
        match self.left.first() {
            Some(next) => has_key(next, key),
            None => false,
        }
    }

    /// Whether a sign comes next.
    pub(crate) fn next_is_sign(&self, sign: Sign) -> bool
        ensures { result ≡ next_is (is_sign sign) self.now.1 }
    {
        match self.left.first() {
            Some(next) => has_sign(next, sign),
            None => false,
        }
    }

    /// Whether a reserved word comes behind the next token.
    pub(crate) fn second_is_key(&self, key: Key) -> bool
        ensures { result ≡ second_is (is_key key) self.now.1 }
    {
        match self.left {
            [_, second, ..] => has_key(second, key),
            _ => false,
        }
    }

    /// Whether "else" "if" comes next.
    pub fn next_is_else_if(&self) -> bool
        ensures { result ≡ is_else_if self.now.1 }
    {
        self.next_is_key(Key::Else) && self.second_is_key(Key::If)
    }

    /// Whether a builtin comes next.
    pub(crate) fn next_is_builtin(&self) -> bool
        ensures { result ≡ next_is is_builtin_key self.now.1 }
    {
        matches!(self.left.first(), Some(Token { tok: Tok::Key(which), .. }) if is_builtin(*which))
    }

    /// Whether an identifier comes next.
    pub fn next_is_name(&self) -> bool
        ensures { result ≡ next_is is_name self.now.1 }
    {
        matches!(
            self.left.first(),
            Some(Token {
                tok: Tok::Ident(_),
                ..
            })
        )
    }

    /// Whether a reserved word comes next. It is taken if so.
    pub fn takes_key(&mut self, key: Key) -> bool
        ensures took { Takes (tok.Key key) self.old result self.new }
        ensures comes { result ≡ next_is (is_key key) self.old.1 }
    {
        match self.left.split_first() {
            Some((first, rest)) if has_key(first, key) => {
                self.left = rest;
                self.at += 1;
                true
            }
            _ => false,
        }
    }

    /// Whether a sign comes next. It is taken if so.
    pub fn takes_sign(&mut self, sign: Sign) -> bool
        ensures took { Takes (tok.Sign sign) self.old result self.new }
        ensures comes { result ≡ next_is (is_sign sign) self.old.1 }
    {
        match self.left.split_first() {
            Some((first, rest)) if has_sign(first, sign) => {
                self.left = rest;
                self.at += 1;
                true
            }
            _ => false,
        }
    }

    /// The place of a reserved word, which is taken.
    pub fn key(&mut self, key: Key) -> Result<u32, ParseError>
        ensures took { IfOk result (λ at. TookOne (tok.Key key) self.old self.new) }
        ensures place { IfOk result (λ at. at ≡ self.old.0) }
        ensures same { Meets (want.word key ∷ []) self.old result self.new }
    {
        let at = self.at;
        if self.takes_key(key) {
            Ok(at)
        } else {
            self.refuse()
        }
    }

    /// The place of a sign, which is taken.
    pub fn sign(&mut self, sign: Sign) -> Result<u32, ParseError>
        ensures took { IfOk result (λ at. TookOne (tok.Sign sign) self.old self.new) }
        ensures place { IfOk result (λ at. at ≡ self.old.0) }
        ensures same { Meets (want.mark sign ∷ []) self.old result self.new }
    {
        let at = self.at;
        if self.takes_sign(sign) {
            Ok(at)
        } else {
            self.refuse()
        }
    }

    /// The identifier that comes next, if one does. It is taken if so.
    pub(crate) fn takes_name(&mut self) -> Result<Option<Id>, ParseError>
        ensures took { IfOk result (λ found. MatchOption found (self.new ≡ self.old) (Took id_tokens id_span Any self.old self.new)) }
        ensures comes { IfOk result (λ found. is_some found ≡ next_is is_name self.old.1) }
        ensures memory { IfErr result (λ error. error ≡ ParseError.Memory) }
    {
        match self.left {
            [
                Token {
                    tok: Tok::Ident(name),
                    ..
                },
                rest @ ..,
            ] => {
                let name = Word::from_slice(self.alloc, name.as_slice())?;
                let at = self.at;
                self.left = rest;
                self.at += 1;
                Ok(Some(Id { name, at }))
            }
            _ => Ok(None),
        }
    }

    /// id
    pub fn name(&mut self) -> Result<Id, ParseError>
        ensures took { Reads id_tokens id_span Any self.old result self.new }
        ensures same { Meets (want.name ∷ []) self.old result self.new }
    {
        match self.takes_name()? {
            Some(id) => Ok(id),
            None => self.refuse(),
        }
    }

    /// The number that comes next, if one does. It is taken if so.
    pub(crate) fn takes_number(&mut self) -> Option<u64>
        ensures took { MatchOption result (self.new ≡ self.old) (λ value. TookOne (tok.Int value) self.old self.new) }
        ensures none { result ≡ None → next_is is_number self.old.1 ≡ false }
    {
        match self.left.split_first() {
            Some(
                (
                    Token {
                        tok: Tok::Int(value),
                        ..
                    },
                    rest,
                ),
            ) => {
                self.left = rest;
                self.at += 1;
                Some(*value)
            }
            _ => None,
        }
    }

    /// The builtin that comes next, if one does. It is taken if so.
    pub(crate) fn takes_builtin(&mut self) -> Option<Key>
        ensures took { MatchOption result (self.new ≡ self.old) (λ which. TookOne (tok.Key which) self.old self.new × is_builtin which ≡ true) }
        ensures none { result ≡ None → next_is is_builtin_key self.old.1 ≡ false }
    {
        match self.left.split_first() {
            Some(
                (
                    Token {
                        tok: Tok::Key(which),
                        ..
                    },
                    rest,
                ),
            ) if is_builtin(*which) => {
                self.left = rest;
                self.at += 1;
                Some(*which)
            }
            _ => None,
        }
    }

    /// The sign that comes next, if it is a comparison. It is taken if so.
    pub(crate) fn takes_comparison(&mut self) -> Option<Sign>
        ensures took { MatchOption result (self.new ≡ self.old) (λ which. TookOne (tok.Sign which) self.old self.new × is_comparison which ≡ true) }
        ensures none { result ≡ None → next_is (λ t. goes (comparison_step t)) self.old.1 ≡ false }
    {
        match self.left.split_first() {
            Some(
                (
                    Token {
                        tok: Tok::Sign(which),
                        ..
                    },
                    rest,
                ),
            ) if is_comparison(*which) => {
                self.left = rest;
                self.at += 1;
                Some(*which)
            }
            _ => None,
        }
    }

    /// The sign that comes next, if it is one of a sum. It is taken if so.
    pub(crate) fn takes_sum_sign(&mut self) -> Option<Sign>
        ensures took { MatchOption result (self.new ≡ self.old) (λ which. TookOne (tok.Sign which) self.old self.new × is_sum_sign which ≡ true) }
        ensures none { result ≡ None → next_is (λ t. goes (term_step t)) self.old.1 ≡ false }
    {
        match self.left.split_first() {
            Some(
                (
                    Token {
                        tok: Tok::Sign(which),
                        ..
                    },
                    rest,
                ),
            ) if is_sum_sign(*which) => {
                self.left = rest;
                self.at += 1;
                Some(*which)
            }
            _ => None,
        }
    }

    /// The sign that comes next, if it is one of a product. It is taken if so.
    pub(crate) fn takes_mul_sign(&mut self) -> Option<Sign>
        ensures took { MatchOption result (self.new ≡ self.old) (λ which. TookOne (tok.Sign which) self.old self.new × is_mul_sign which ≡ true) }
        ensures none { result ≡ None → next_is (λ t. goes (factor_step t)) self.old.1 ≡ false }
    {
        match self.left.split_first() {
            Some(
                (
                    Token {
                        tok: Tok::Sign(which),
                        ..
                    },
                    rest,
                ),
            ) if is_mul_sign(*which) => {
                self.left = rest;
                self.at += 1;
                Some(*which)
            }
            _ => None,
        }
    }

    /// "int" | "bool" | id | ("list" | "opt") "<" type ">"
    #[cycle(read_type)]
    pub fn type_name(&mut self) -> Result<TypeName, ParseError>
        ensures took { Reads type_tokens type_span Any self.old result self.new }
        ensures same { Meets (want.ty ∷ []) self.old result self.new }
    {
        let at = self.at;
        if self.takes_key(Key::Int) {
            return Ok(TypeName::Int(at));
        }
        if self.takes_key(Key::Bool) {
            return Ok(TypeName::Bool(at));
        }
        if self.takes_key(Key::List) {
            return Ok(TypeName::List(at, self.part_type()?));
        }
        if self.takes_key(Key::Opt) {
            return Ok(TypeName::Opt(at, self.part_type()?));
        }
        Ok(TypeName::Named(self.name()?))
    }

    /// "<" type ">"
    #[cycle(read_type)]
    fn part_type(&mut self) -> Result<Boxed<TypeName>, ParseError>
        ensures took { Reads (λ ty. in_angles (type_tokens ty)) (λ ty. bracketed (type_span ty)) Any self.old result self.new }
        ensures same { Meets angles self.old result self.new }
    {
        self.sign(Sign::Less)?;
        let part = self.type_name()?;
        self.sign(Sign::Greater)?;
        Ok(Boxed::new(self.alloc, part)?)
    }
}

/// Whether a token is a reserved word.
fn has_key(token: &Token, key: Key) -> bool
    ensures tests { result ≡ is_key key token.now.tok }
    ensures is { result ≡ true → token.now.tok ≡ tok.Key key }
{
    token.tok.is_key(key)
}

/// Whether a token is a sign.
fn has_sign(token: &Token, sign: Sign) -> bool
    ensures tests { result ≡ is_sign sign token.now.tok }
    ensures is { result ≡ true → token.now.tok ≡ tok.Sign sign }
{
    token.tok.is_sign(sign)
}

/// Whether a word is the name of a builtin.
fn is_builtin(which: Key) -> bool
    ensures { result ≡ is_builtin which }
{
    matches!(
        which,
        Key::SomeOf
            | Key::Len
            | Key::Range
            | Key::Push
            | Key::Put
            | Key::Take
            | Key::Skip
            | Key::Min
            | Key::Max
            | Key::IsSome
    )
}

/// "==" | "!=" | "<" | "<=" | ">" | ">="
fn is_comparison(which: Sign) -> bool
    ensures { result ≡ is_comparison which }
{
    matches!(
        which,
        Sign::EqualEqual
            | Sign::NotEqual
            | Sign::Less
            | Sign::LessEqual
            | Sign::Greater
            | Sign::GreaterEqual
    )
}

/// "+" | "-" | "+|" | "-|" | "++"
fn is_sum_sign(which: Sign) -> bool
    ensures { result ≡ is_sum_sign which }
{
    matches!(
        which,
        Sign::Plus | Sign::Minus | Sign::PlusBar | Sign::MinusBar | Sign::PlusPlus
    )
}

/// "*" | "/" | "%" | "*|"
fn is_mul_sign(which: Sign) -> bool
    ensures { result ≡ is_mul_sign which }
{
    matches!(
        which,
        Sign::Star | Sign::Slash | Sign::Percent | Sign::StarBar
    )
}

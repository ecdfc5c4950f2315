//! Tokens and signs.

ghost use Rattle.std.specs.Prelude.{◌≡◌, ◌↔◌, IsTrue};
ghost use Rattle.dsde_syntax.specs.Spelling.{sign_text, sign_of};

use dsde_lists::Text as Word;
use dsde_words::Key;

/// The greatest number that a text may name.
pub const GREATEST_NUMBER: u64 = 9_223_372_036_854_775_807;

/// A token of a text, and where it stands.
#[derive(Drop)]
pub struct Token {
    pub tok: Tok,
    /// The offset of its first byte.
    pub from: u32,
    /// The offset behind its last byte.
    pub to: u32,
}

/// The smallest parts of a text that mean something.
#[derive(Drop)]
pub enum Tok {
    Key(Key),
    Sign(Sign),
    Ident(Word),
    /// At most 2^63 - 1.
    Int(u64),
}

impl Tok {
    /// Whether this is a reserved word.
    pub fn is_key(&self, key: Key) -> bool
        ensures { IsTrue result ↔ (self.now ≡ Tok.Key key) }
    {
        match self {
            Tok::Key(own) => *own == key,
            _ => false,
        }
    }

    /// Whether this is a sign.
    pub fn is_sign(&self, sign: Sign) -> bool
        ensures { IsTrue result ↔ (self.now ≡ Tok.Sign sign) }
    {
        match self {
            Tok::Sign(own) => *own == sign,
            _ => false,
        }
    }

    /// Whether this is an identifier.
    pub fn is_name(&self, name: &[u8]) -> bool
        ensures { IsTrue result ↔ (self.now ≡ Tok.Ident name.now) }
    {
        match self {
            Tok::Ident(own) => own.as_slice() == name,
            _ => false,
        }
    }
}

/// The signs.
#[derive(Clone, Copy, PartialEq, Eq)]
pub enum Sign {
    /// `(`
    OpenParen,
    /// `)`
    CloseParen,
    /// `[`
    OpenBracket,
    /// `]`
    CloseBracket,
    /// `{`
    OpenBrace,
    /// `}`
    CloseBrace,
    /// `<`
    Less,
    /// `>`
    Greater,
    /// `<=`
    LessEqual,
    /// `>=`
    GreaterEqual,
    /// `==`
    EqualEqual,
    /// `!=`
    NotEqual,
    /// `=`
    Equal,
    /// `+`
    Plus,
    /// `-`
    Minus,
    /// `*`
    Star,
    /// `/`
    Slash,
    /// `%`
    Percent,
    /// `+|`
    PlusBar,
    /// `-|`
    MinusBar,
    /// `*|`
    StarBar,
    /// `++`
    PlusPlus,
    /// `??`
    QuestionQuestion,
    /// `!`
    Bang,
    /// `.`
    Dot,
    /// `,`
    Comma,
    /// `:`
    Colon,
    /// `::`
    ColonColon,
    /// `;`
    Semicolon,
    /// `->`
    Arrow,
    /// `=>`
    FatArrow,
}

impl Sign {
    /// Each sign, those of two bytes first.
    pub const ALL: [Sign; 31] = [
        Sign::LessEqual,
        Sign::GreaterEqual,
        Sign::EqualEqual,
        Sign::NotEqual,
        Sign::PlusBar,
        Sign::MinusBar,
        Sign::StarBar,
        Sign::PlusPlus,
        Sign::QuestionQuestion,
        Sign::ColonColon,
        Sign::Arrow,
        Sign::FatArrow,
        Sign::OpenParen,
        Sign::CloseParen,
        Sign::OpenBracket,
        Sign::CloseBracket,
        Sign::OpenBrace,
        Sign::CloseBrace,
        Sign::Less,
        Sign::Greater,
        Sign::Equal,
        Sign::Plus,
        Sign::Minus,
        Sign::Star,
        Sign::Slash,
        Sign::Percent,
        Sign::Bang,
        Sign::Dot,
        Sign::Comma,
        Sign::Colon,
        Sign::Semicolon,
    ];

    /// The sign as it is written.
    pub fn text(self) -> &'static str
        ensures { result.now ≡ sign_text self }
    {
        match self {
            Sign::OpenParen => "(",
            Sign::CloseParen => ")",
            Sign::OpenBracket => "[",
            Sign::CloseBracket => "]",
            Sign::OpenBrace => "{",
            Sign::CloseBrace => "}",
            Sign::Less => "<",
            Sign::Greater => ">",
            Sign::LessEqual => "<=",
            Sign::GreaterEqual => ">=",
            Sign::EqualEqual => "==",
            Sign::NotEqual => "!=",
            Sign::Equal => "=",
            Sign::Plus => "+",
            Sign::Minus => "-",
            Sign::Star => "*",
            Sign::Slash => "/",
            Sign::Percent => "%",
            Sign::PlusBar => "+|",
            Sign::MinusBar => "-|",
            Sign::StarBar => "*|",
            Sign::PlusPlus => "++",
            Sign::QuestionQuestion => "??",
            Sign::Bang => "!",
            Sign::Dot => ".",
            Sign::Comma => ",",
            Sign::Colon => ":",
            Sign::ColonColon => "::",
            Sign::Semicolon => ";",
            Sign::Arrow => "->",
            Sign::FatArrow => "=>",
        }
    }

    /// The longest sign that a text begins with, if it begins with one.
    pub fn at_front(text: &[u8]) -> Option<Sign>
        ensures { result ≡ sign_of text.now }
    {
        Sign::ALL
            .iter()
            .copied()
            .find(|sign| text.starts_with(sign.text().as_bytes()))
    }
}

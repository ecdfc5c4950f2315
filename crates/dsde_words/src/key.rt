//! The reserved words of the language.

ghost use Rattle.std.specs.Prelude.{◌≡◌};
ghost use Rattle.dsde_words.specs.Words.{key_text, key_of, is_reserved};

/// The reserved words.
#[derive(Clone, Copy, PartialEq, Eq)]
pub enum Key {
    Enum,
    Record,
    Fn,
    Atomic,
    Network,
    Exec,
    In,
    Out,
    State,
    Advance,
    Output,
    Internal,
    External,
    Confluent,
    Structure,
    Comp,
    Link,
    Via,
    Is,
    For,
    If,
    Else,
    Let,
    Var,
    Send,
    Return,
    New,
    NoneOf,
    EmptyOf,
    SomeOf,
    True,
    False,
    And,
    Or,
    Not,
    Len,
    Range,
    Push,
    Put,
    Take,
    Skip,
    Min,
    Max,
    IsSome,
    Int,
    Bool,
    List,
    Opt,
    Top,
    Net,
    Elapsed,
}

impl Key {
    /// Each reserved word, in the order of its variants.
    pub const ALL: [Key; 51] = [
        Key::Enum,
        Key::Record,
        Key::Fn,
        Key::Atomic,
        Key::Network,
        Key::Exec,
        Key::In,
        Key::Out,
        Key::State,
        Key::Advance,
        Key::Output,
        Key::Internal,
        Key::External,
        Key::Confluent,
        Key::Structure,
        Key::Comp,
        Key::Link,
        Key::Via,
        Key::Is,
        Key::For,
        Key::If,
        Key::Else,
        Key::Let,
        Key::Var,
        Key::Send,
        Key::Return,
        Key::New,
        Key::NoneOf,
        Key::EmptyOf,
        Key::SomeOf,
        Key::True,
        Key::False,
        Key::And,
        Key::Or,
        Key::Not,
        Key::Len,
        Key::Range,
        Key::Push,
        Key::Put,
        Key::Take,
        Key::Skip,
        Key::Min,
        Key::Max,
        Key::IsSome,
        Key::Int,
        Key::Bool,
        Key::List,
        Key::Opt,
        Key::Top,
        Key::Net,
        Key::Elapsed,
    ];

    /// The word as it is written.
    pub fn text(self) -> &'static str
        ensures { result.now ≡ key_text self }
    {
        match self {
            Key::Enum => "enum",
            Key::Record => "record",
            Key::Fn => "fn",
            Key::Atomic => "atomic",
            Key::Network => "network",
            Key::Exec => "exec",
            Key::In => "in",
            Key::Out => "out",
            Key::State => "state",
            Key::Advance => "advance",
            Key::Output => "output",
            Key::Internal => "internal",
            Key::External => "external",
            Key::Confluent => "confluent",
            Key::Structure => "structure",
            Key::Comp => "comp",
            Key::Link => "link",
            Key::Via => "via",
            Key::Is => "is",
            Key::For => "for",
            Key::If => "if",
            Key::Else => "else",
            Key::Let => "let",
            Key::Var => "var",
            Key::Send => "send",
            Key::Return => "return",
            Key::New => "new",
            Key::NoneOf => "none",
            Key::EmptyOf => "empty",
            Key::SomeOf => "some",
            Key::True => "true",
            Key::False => "false",
            Key::And => "and",
            Key::Or => "or",
            Key::Not => "not",
            Key::Len => "len",
            Key::Range => "range",
            Key::Push => "push",
            Key::Put => "put",
            Key::Take => "take",
            Key::Skip => "skip",
            Key::Min => "min",
            Key::Max => "max",
            Key::IsSome => "is_some",
            Key::Int => "int",
            Key::Bool => "bool",
            Key::List => "list",
            Key::Opt => "opt",
            Key::Top => "top",
            Key::Net => "net",
            Key::Elapsed => "elapsed",
        }
    }

    /// The reserved word that these bytes are, if they are one.
    pub fn of_text(text: &[u8]) -> Option<Key>
        ensures { result ≡ key_of text.now }
    {
        Key::ALL
            .iter()
            .copied()
            .find(|key| key.text().as_bytes() == text)
    }
}

/// Whether a text is a reserved word.
pub fn is_reserved(text: &[u8]) -> bool
    ensures { result ≡ is_reserved text.now }
{
    Key::of_text(text).is_some()
}

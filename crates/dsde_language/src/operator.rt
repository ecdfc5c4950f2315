//! Builtins, and operators of two parts.

/// A builtin, but `some`.
#[derive(Clone, Copy)]
pub enum Builtin {
    Len,
    Range,
    Push,
    Put,
    Take,
    Skip,
    Min,
    Max,
    IsSome,
}

/// An operator of two parts.
#[derive(Clone, Copy)]
pub enum Binary {
    Or,
    And,
    Equal,
    NotEqual,
    Less,
    LessEqual,
    Greater,
    GreaterEqual,
    Add,
    Sub,
    Mul,
    Div,
    Rem,
    /// `+|`
    CapAdd,
    /// `-|`
    CapSub,
    /// `*|`
    CapMul,
    /// `++`
    Join,
}

//! What may be wrong in a model.

/// What kind of wrong thing stands at a place.
#[derive(Clone, Copy)]
pub enum WrongKind {
    /// A name that another one has already, or a second `top`.
    Duplicate,
    /// A name of nothing that may stand there.
    Unknown,
    /// A part of another type than its place wants, or another number of parts.
    WrongType,
    /// A translation that may have no value.
    NotTotal,
    /// A link from what is no source or to what is no target.
    BadLink,
    /// In ports without an external block.
    NoExternal,
    /// A component's identifier with two models.
    MixedFamily,
    /// A file without `top`.
    NoTop,
    /// A type that is deeper than 64, or a declaration with a part that is higher than 512.
    Limit,
}

/// What is wrong, and the place of it, which is the index of a token.
#[derive(Clone, Copy)]
pub struct Wrong {
    pub kind: WrongKind,
    pub at: u32,
}

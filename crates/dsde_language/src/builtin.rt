//! What builtins take and give.

use dsde_values::Seq;

/// What an argument of a builtin is to be. `T` is what the arguments before it said.
#[derive(Clone, Copy)]
pub enum Part {
    /// Of any type, which is `T`.
    Any,
    /// A `list<T>`.
    List,
    /// An `opt<T>`.
    Opt,
    Int,
    /// Of type `T`.
    Item,
}

/// The type of what a builtin gives.
#[derive(Clone, Copy)]
pub enum Gives {
    Int,
    Bool,
    /// `opt<T>`
    Opt,
    /// `list<T>`
    List,
    /// `list<int>`
    Ints,
}

/// A row of the table of builtins.
#[derive(Drop)]
pub struct Row {
    pub parts: Seq<Part>,
    pub gives: Gives,
    /// Whether it may have no value.
    pub may_fault: bool,
}

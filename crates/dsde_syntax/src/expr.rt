//! Expressions.

use crate::{Boxed, Id, Items, Key, Sign, TypeName};

/// An expression. A chain of operators of one level groups to the left.
#[cycle(expr)]
#[derive(Drop)]
pub enum Expr {
    /// `left ?? right`, with the place of `??`.
    OrElse {
        at: u32,
        left: Boxed<Expr>,
        right: Boxed<Expr>,
    },
    /// `first or ..`
    Or {
        first: Boxed<Expr>,
        rest: Items<Tail>,
    },
    /// `first and ..`
    And {
        first: Boxed<Expr>,
        rest: Items<Tail>,
    },
    /// `not of`, with the place of `not`.
    Not {
        at: u32,
        of: Boxed<Expr>,
    },
    /// `left == right` and the other comparisons, with the place of the sign.
    Compare {
        sign: Sign,
        at: u32,
        left: Boxed<Expr>,
        right: Boxed<Expr>,
    },
    /// `first + ..`, with `+ - +| -| ++`.
    Sum {
        first: Boxed<Expr>,
        rest: Items<SignTail>,
    },
    /// `first * ..`, with `* / % *|`.
    Mul {
        first: Boxed<Expr>,
        rest: Items<SignTail>,
    },
    /// `-of`, with the place of `-`.
    Neg {
        at: u32,
        of: Boxed<Expr>,
    },
    /// `first.id`, `first[index]` and `first!`.
    Post {
        first: Boxed<Expr>,
        suffixes: Items<Suffix>,
    },
    /// A number, at most 2^63 - 1.
    Number {
        at: u32,
        value: u64,
    },
    /// `true` or `false`.
    Truth {
        at: u32,
        value: bool,
    },
    /// `elapsed`, by its place.
    Elapsed(u32),
    /// A name that is bound.
    Name(Id),
    /// `name(args)`
    Call {
        name: Id,
        args: Items<Expr>,
    },
    /// `of::variant`
    Variant {
        of: Id,
        variant: Id,
    },
    /// `new of { fields }`, with the place of `new`.
    New {
        at: u32,
        of: Id,
        fields: Items<FieldSet>,
    },
    /// `none<ty>`, with the place of `none`.
    NoneOf {
        at: u32,
        ty: TypeName,
    },
    /// `empty<ty>`, with the place of `empty`.
    EmptyOf {
        at: u32,
        ty: TypeName,
    },
    /// `len(args)` and the other builtins, with the place of the word.
    Builtin {
        which: Key,
        at: u32,
        args: Items<Expr>,
    },
    /// `(inner)`, with the place of `(`.
    Paren {
        at: u32,
        inner: Boxed<Expr>,
    },
    /// `[items]`, with the place of `[`.
    List {
        at: u32,
        items: Items<Expr>,
    },
    /// `[for name in list if cond: value]`, with the place of `[`.
    Each {
        at: u32,
        name: Id,
        list: Boxed<Expr>,
        cond: Option<Boxed<Expr>>,
        value: Boxed<Expr>,
    },
    /// `if cond { value } else { other }` with any number of `else if`, and the place of the
    /// first `if`.
    If {
        at: u32,
        arms: Items<ExprArm>,
        other: Boxed<Expr>,
    },
}

/// `or value` or `and value`, with the place of the word.
#[cycle(expr)]
#[derive(Drop)]
pub struct Tail {
    pub at: u32,
    pub value: Expr,
}

/// A sign and what stands behind it, with the place of the sign.
#[cycle(expr)]
#[derive(Drop)]
pub struct SignTail {
    pub sign: Sign,
    pub at: u32,
    pub value: Expr,
}

/// What stands behind a primary expression, with the place of its sign.
#[cycle(expr)]
#[derive(Drop)]
pub enum Suffix {
    /// `.name`
    Field { at: u32, name: Id },
    /// `[value]`
    Index { at: u32, value: Expr },
    /// `!`
    Unwrap { at: u32 },
}

/// `name: value` in a new record.
#[cycle(expr)]
#[derive(Drop)]
pub struct FieldSet {
    pub name: Id,
    pub value: Expr,
}

/// `if cond { value }`
#[cycle(expr)]
#[derive(Drop)]
pub struct ExprArm {
    pub cond: Expr,
    pub value: Expr,
}

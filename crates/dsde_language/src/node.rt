//! Expressions with numbers for names and parts.

use crate::{Binary, Builtin, ExprId};
use dsde_values::Seq;

/// An expression with numbers for names and parts. A place is the index of a token.
#[derive(Drop)]
pub enum Node {
    /// A name that is seen, or `elapsed`, by its slot.
    Slot(u32),
    Int(i64),
    Bool(bool),
    /// The numbers of an enum and of one of its variants.
    Variant(u32, u32),
    /// The number of a record, and the values of its fields.
    New(u32, Seq<ExprId>),
    /// `none<T>`
    Nothing,
    /// `empty<T>`
    Empty,
    Some(ExprId),
    /// The number of a function, and its arguments.
    Call(u32, Seq<ExprId>),
    /// With the place of the builtin's name.
    Builtin(Builtin, u32, Seq<ExprId>),
    /// With the place of `[`.
    List(u32, Seq<ExprId>),
    /// A comprehension.
    Each {
        list: ExprId,
        cond: Option<ExprId>,
        value: ExprId,
    },
    If(Seq<NodeArm>, ExprId),
    /// `??`
    OrElse(ExprId, ExprId),
    /// With the place of the sign, or of the word `or` or `and`.
    Binary(Binary, u32, ExprId, ExprId),
    Not(ExprId),
    /// With the place of the sign.
    Neg(u32, ExprId),
    /// The number of a field, and the record.
    Field(u32, ExprId),
    /// With the place of `[`.
    Index(u32, ExprId, ExprId),
    /// With the place of `!`.
    Unwrap(u32, ExprId),
}

/// A condition, and the value behind it.
#[derive(Clone, Copy)]
pub struct NodeArm {
    pub cond: ExprId,
    pub value: ExprId,
}

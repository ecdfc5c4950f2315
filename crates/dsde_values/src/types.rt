//! Types, and tables of them.

use dsde_lists::{Boxed, Seq, Text};

/// A type of values. Enums and records go by their number in a table of types.
#[derive(Drop)]
pub enum Ty {
    Int,
    Bool,
    Enum(u32),
    Rec(u32),
    List(Boxed<Ty>),
    Opt(Boxed<Ty>),
}

/// A named place for values of one type: a port, a parameter, a state variable or a record's field.
#[derive(Drop)]
pub struct Field {
    pub name: Text,
    pub ty: Ty,
}

/// What a definition defines: an enum by its variants, or a record by its fields.
#[derive(Drop)]
pub enum Shape {
    Enum(Seq<Text>),
    Rec(Seq<Field>),
}

/// A type that a model defines.
#[derive(Drop)]
pub struct Def {
    pub name: Text,
    pub shape: Shape,
}

/// A table of types. A type's number is its place here, counted from 0.
#[derive(Drop)]
pub struct Types {
    pub defs: Seq<Def>,
}

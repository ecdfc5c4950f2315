//! Models and their declarations.

use crate::{Expr, Id, Item, Items, Stmt, TypeName};

/// A file of the language.
#[derive(Drop)]
pub struct Model {
    pub decls: Items<Decl>,
}

/// A declaration of a file.
#[derive(Drop)]
pub enum Decl {
    /// `enum name { variants }`
    Enum {
        name: Id,
        variants: Items<Id>,
    },
    /// `record name { fields }`
    Rec {
        name: Id,
        fields: Items<Typed>,
    },
    /// `fn name(params) -> result { stmts return value; }`
    Func {
        name: Id,
        params: Items<Typed>,
        result: TypeName,
        stmts: Items<Stmt>,
        value: Expr,
    },
    /// `atomic name(params) { body }`, with the place of `atomic`.
    Atomic {
        at: u32,
        name: Id,
        params: Items<Typed>,
        body: Body,
    },
    /// `network name(params) { ports exec { body structure { items } } }`, with the places of
    /// `network` and `exec`.
    Network {
        at: u32,
        name: Id,
        params: Items<Typed>,
        ports: Items<PortDecl>,
        exec_at: u32,
        body: Body,
        items: Items<Item>,
    },
    /// `top name(args);`, with the place of `top`.
    Top {
        at: u32,
        name: Id,
        args: Items<Expr>,
    },
}

/// `name: ty`
#[derive(Drop)]
pub struct Typed {
    pub name: Id,
    pub ty: TypeName,
}

/// `in name: ty;`, or `out name: ty;`
#[derive(Drop)]
pub struct PortDecl {
    pub out: bool,
    pub name: Id,
    pub ty: TypeName,
}

/// `state name: ty = value;`
#[derive(Drop)]
pub struct StateDecl {
    pub name: Id,
    pub ty: TypeName,
    pub value: Expr,
}

/// What stands in the braces of an atomic model or of an executive.
#[derive(Drop)]
pub struct Body {
    pub ports: Items<PortDecl>,
    pub states: Items<StateDecl>,
    /// The place of `advance`.
    pub advance_at: u32,
    pub advance: Expr,
    pub output: Option<Phase>,
    pub internal: Option<Phase>,
    pub external: Option<Phase>,
    pub confluent: Option<Phase>,
}

/// The block of one of the phases, with the place of the phase's word.
#[derive(Drop)]
pub struct Phase {
    pub at: u32,
    pub stmts: Items<Stmt>,
}

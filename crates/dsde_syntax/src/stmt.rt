//! Statements.

use crate::{Expr, Id, Items};

/// A statement of a block.
#[cycle(stmt)]
#[derive(Drop)]
pub enum Stmt {
    /// `let name = value;`, or `var name = value;` where it may be assigned to.
    Let {
        mutable: bool,
        name: Id,
        value: Expr,
    },
    /// `name = value;`
    Set {
        name: Id,
        value: Expr,
    },
    /// `send port(value);`
    Send {
        port: Id,
        value: Expr,
    },
    /// `if cond { body }` with any number of `else if`, and `else { other }` if it is written.
    If {
        arms: Items<StmtArm>,
        other: Option<Items<Stmt>>,
    },
    /// `for name in list { body }`
    For {
        name: Id,
        list: Expr,
        body: Items<Stmt>,
    },
}

/// `if cond { body }`
#[cycle(stmt)]
#[derive(Drop)]
pub struct StmtArm {
    pub cond: Expr,
    pub body: Items<Stmt>,
}

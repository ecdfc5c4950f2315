//! The items of a structure.

use crate::{Expr, Id, Items};

/// An item of a network's structure.
#[cycle(item)]
#[derive(Drop)]
pub enum Item {
    /// `comp name[index] is model(args);`, or with `:` in place of `is` for a soft entry, with the
    /// place of `comp`.
    Comp {
        at: u32,
        name: Id,
        index: Option<Bracket>,
        soft: bool,
        model: Id,
        args: Items<Expr>,
    },
    /// `link from -> to via ..;`, with the place of `link`.
    Link {
        at: u32,
        from: End,
        to: End,
        via: Option<ViaPart>,
    },
    /// `let name = value;`
    Let {
        name: Id,
        value: Expr,
    },
    /// `if cond { body }` with any number of `else if`, and `else { other }` if it is written.
    If {
        arms: Items<ItemArm>,
        other: Option<Items<Item>>,
    },
    /// `for name in list { body }`
    For {
        name: Id,
        list: Expr,
        body: Items<Item>,
    },
}

/// `if cond { body }`
#[cycle(item)]
#[derive(Drop)]
pub struct ItemArm {
    pub cond: Expr,
    pub body: Items<Item>,
}

/// `[value]`, with the place of `[`.
#[derive(Drop)]
pub struct Bracket {
    pub at: u32,
    pub value: Expr,
}

/// `part.port`, an end of a link.
#[derive(Drop)]
pub struct End {
    pub part: EndPart,
    pub port: Id,
}

/// Whose port an end of a link is.
#[derive(Drop)]
pub enum EndPart {
    /// The network's own.
    Net,
    /// The executive's.
    Exec,
    /// A component's.
    Kid { name: Id, index: Option<Bracket> },
}

/// `via (value, key) => body`, the translation of a link's values.
#[derive(Drop)]
pub struct ViaPart {
    pub value: Id,
    pub key: Option<ViaKey>,
    pub body: Expr,
}

/// `name = value`, a name that a translation sees beside the value it translates.
#[derive(Drop)]
pub struct ViaKey {
    pub name: Id,
    pub value: Expr,
}

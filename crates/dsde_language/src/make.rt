//! Items of a structure with numbers for names, expressions, ports and models.

use crate::{ExprId, ModelId, ViaId};
use dsde_values::{Seq, Text};

/// An item of a structure with numbers for names, expressions, ports and models.
#[cycle(make)]
#[derive(Drop)]
pub enum Make {
    /// With the place of `comp`. It is soft where it is written with `:`.
    Comp {
        at: u32,
        stem: Text,
        index: Option<MakeIndex>,
        model: ModelId,
        args: Seq<ExprId>,
        soft: bool,
    },
    /// With the place of `link`.
    Link {
        at: u32,
        from: MakeEnd,
        to: MakeEnd,
        via: Option<MakeVia>,
    },
    /// The value of the next slot.
    Let(ExprId),
    If(Seq<MakeArm>, Option<Seq<Make>>),
    /// A list, and the items that each of its items is put before.
    For(ExprId, Seq<Make>),
}

/// A condition, and the items behind it.
#[cycle(make)]
#[derive(Drop)]
pub struct MakeArm {
    pub cond: ExprId,
    pub makes: Seq<Make>,
}

/// An index, with the place of `[`.
#[derive(Clone, Copy)]
pub struct MakeIndex {
    pub at: u32,
    pub value: ExprId,
}

/// Whose port an end of a link is.
#[derive(Drop)]
pub enum MakePart {
    Net,
    Boss,
    Kid {
        stem: Text,
        index: Option<MakeIndex>,
    },
}

/// An end of a link.
#[derive(Drop)]
pub struct MakeEnd {
    pub part: MakePart,
    /// The number of the port among those of its direction.
    pub port: u32,
}

/// The translation of a link, and its key.
#[derive(Clone, Copy)]
pub struct MakeVia {
    pub id: ViaId,
    pub key: Option<ExprId>,
}

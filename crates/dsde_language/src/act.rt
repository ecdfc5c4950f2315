//! Statements with numbers for names, expressions and blocks.

use crate::{BlockId, ExprId};
use dsde_values::Seq;

/// A statement with numbers for names, expressions and blocks.
#[derive(Drop)]
pub enum Act {
    /// The value of the next slot.
    Let(ExprId),
    /// A slot, and its new value.
    Set(u32, ExprId),
    /// An out port, and what is sent.
    Send(u32, ExprId),
    If(Seq<ActArm>, Option<BlockId>),
    /// A list, and the block that each of its items is put before.
    For(ExprId, BlockId),
}

/// A condition, and the block behind it.
#[derive(Clone, Copy)]
pub struct ActArm {
    pub cond: ExprId,
    pub then: BlockId,
}

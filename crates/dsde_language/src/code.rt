//! What stands for functions, bodies and translations.

use crate::{BlockId, ExprId};
use dsde_values::Seq;

/// A function: the block before its `return`, and its value.
#[derive(Clone, Copy)]
pub struct FnCode {
    pub block: BlockId,
    pub value: ExprId,
}

/// A body. The place of a block that is absent is 0.
#[derive(Drop)]
pub struct Code {
    /// The place of `atomic`, or of `exec`.
    pub start_at: u32,
    pub advance_at: u32,
    pub external_at: u32,
    pub confluent_at: u32,
    /// The first values of the state variables.
    pub inits: Seq<ExprId>,
    pub advance: ExprId,
    pub output: Option<BlockId>,
    pub internal: Option<BlockId>,
    pub external: Option<BlockId>,
    pub confluent: Option<BlockId>,
}

/// A translation: its value is in slot 0, and its key, if it has one, in slot 1.
#[derive(Clone, Copy)]
pub struct ViaCode {
    pub key: bool,
    pub body: ExprId,
}

//! The evaluator of tables.

use dsde_language::{FnCode, Tables};
use dsde_values::Seq;
use std::alloc::Global;

/// Evaluates the expressions and runs the blocks of a model's tables, over slots and to a depth. What
/// it is asked for must not be stuck: it looks at no types.
#[derive(Drop)]
pub struct Evaluator<'p> {
    pub alloc: Global,
    pub tables: &'p Tables,
    pub functions: &'p Seq<FnCode>,
}

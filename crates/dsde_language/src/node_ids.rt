//! Numbers of what stands in a model, counted from 0 in text order.

/// The number of an expression, where each comes before its parts. Parentheses have none, and a
/// chain of operators or suffixes is nested to the left.
#[derive(Clone, Copy)]
pub struct ExprId(pub u32);

/// The number of a block, by its opening brace. The statements of a function before its `return` are
/// one block.
#[derive(Clone, Copy)]
pub struct BlockId(pub u32);

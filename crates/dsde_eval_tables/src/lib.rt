//! Evaluates the expressions and runs the blocks of a model's tables.
#![tactic(auto)]

mod eval;
mod evaluator;
pub mod given;
mod looks;
mod numbers;
mod slots;
mod spot;

pub use evaluator::Evaluator;
pub use slots::slots_of;

/// The height that no expression and no block exceeds in which nothing is wrong, and so the depth
/// that evaluating them needs.
pub const GREATEST_HEIGHT: u32 = 512;

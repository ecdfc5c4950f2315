//! Why an expression has no value, in which part of a component, and what that ends.
#![tactic(auto)]

mod end;
mod kind;

pub use end::{EvalEnd, LeafEnd};
pub use kind::{FaultKind, Site};

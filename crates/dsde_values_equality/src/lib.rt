//! Equality of values, and of lists of them, as tests that definitions take, with the law that they
//! are true exactly at equal ones.
#![tactic(auto)]

mod laws;
mod same;

pub use laws::same_values_are_equal;
pub use same::are_same;

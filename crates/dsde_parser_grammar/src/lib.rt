//! The grammar as steps from token to token, that they are those of the tokens of a model, and
//! that no two shaped models have the same tokens.
#![tactic(auto)]

mod laws;
mod unique;

pub use laws::{models_pass, stops_are_first_wrong, what_came_begins_a_model};
pub use unique::one_model;

//! The law that reading refuses no model in which nothing is wrong for its conditions. No code.
#![tactic(auto)]

mod law;

pub use law::right_models_are_shallow;

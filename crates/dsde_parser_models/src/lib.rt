//! The law that tokens of the grammar are those of a model that a text can spell. No code.
#![tactic(auto)]

mod law;

pub use law::grammatical_tokens_have_a_model;

//! What the text of a model comes to: the one model that is accepted, or why it is refused and where.
#![tactic(auto)]

mod law;
mod place;
mod read;
mod refusal;

pub use law::{each_text_has_a_verdict, one_verdict};
pub use read::read_model;
pub use refusal::{ReadModel, Refusal};

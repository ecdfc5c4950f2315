//! How nodes are laid into tables, with the law that what is laid is the resolution, and the laws
//! that what a model is resolved to has what its file declares. No code.
#![tactic(auto)]

mod declared_law;
mod layout_law;

pub use declared_law::{infos_are_declared, top_is_named};
pub use layout_law::{laid_is, model_laid};

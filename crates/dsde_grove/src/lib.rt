//! A tree of live handles with names. A handle of a part that was dropped finds nothing ever again.
#![tactic(auto)]

mod grove;
mod growth;
mod kids;
mod part;
mod subtree;

pub use grove::{Grove, GrowEnd};

//! Declarations and whole files, read from their tokens.
#![tactic(auto)]

mod decl;

pub use decl::decls;

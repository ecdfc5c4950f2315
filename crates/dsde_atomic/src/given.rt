//! What crates below give, for those above: each under the name of its crate.

/// Of `dsde_eval`.
pub mod eval {
    pub use dsde_eval::{Program, translate};
}

//! What crates below give, for those above: each under the name of its crate.

/// Of `dsde_program`.
pub mod program {
    pub use dsde_program::{Program, resolve};
}

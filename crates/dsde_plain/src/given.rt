//! What crates below give, for those above: each under the name of its crate.

/// Of `dsde_run`.
pub mod run {
    pub use dsde_run::{Running, run_leaving, run_started};
}

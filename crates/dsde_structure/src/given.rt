//! What crates below give, for those above: each under the name of its crate.

/// Of `dsde_values_equality`.
pub mod values_equality {
    pub use dsde_values_equality::are_same;
}

//! What crates below give, for those above: each under the name of its crate.

/// Of `dsde_input_records`.
pub mod input_records {
    pub use dsde_input_records::InputEnd;
}

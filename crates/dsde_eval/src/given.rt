//! What crates below give, for those above: each under the name of its crate.

/// Of `dsde_eval_tables`.
pub mod eval_tables {
    pub use dsde_eval_tables::slots_of;
}

/// Of `dsde_program`.
pub mod program {
    pub use dsde_program::Program;
}

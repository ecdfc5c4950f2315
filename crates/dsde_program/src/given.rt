//! What crates below give, for those above: each under the name of its crate.

/// Of `dsde_check_tables`.
pub mod check_tables {
    pub use dsde_program_infos::given::check_tables::narrow;
}

/// Of `dsde_program_layout`.
pub mod program_layout {
    pub use dsde_program_bodies::given::program_layout::infos_are_declared;
}

//! What crates below give, for those above: each under the name of its crate.

/// Of `dsde_input_records`.
pub mod input_records {
    pub use dsde_input_records::value_is_spelled;
}

/// Of `dsde_sound_expressions`.
pub mod sound_expressions {
    pub use dsde_sound_names::given::sound_expressions::structures_stand;
}

/// Of `dsde_sound_names`.
pub mod sound_names {
    pub use dsde_sound_names::plans_are_called_so;
}

//! What crates below give, for those above: each under the name of its crate.

/// Of `dsde_check_tables`.
pub mod check_tables {
    pub use dsde_program_slots::given::check_tables::{
        FamilyEntry, Known, Member, ModelEntry, PortEntry, copy_type, narrow,
    };
}

/// Of `dsde_program_layout`.
pub mod program_layout {
    pub use dsde_program_layout::{infos_are_declared, model_laid, top_is_named};
}

/// Of `dsde_program_slots`.
pub mod program_slots {
    pub use dsde_program_slots::{
        bind, body_scope, item_in, model_id, model_number, params_scope, ports_scope, see_inputs,
        slot_of, slot_type,
    };
}

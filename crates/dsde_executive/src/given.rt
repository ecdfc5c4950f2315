//! What crates below give, for those above: each under the name of its crate.

/// Of `dsde_check_tables`.
pub mod check_tables {
    pub use dsde_program::given::check_tables::narrow;
}

/// Of `dsde_program`.
pub mod program {
    pub use dsde_program::Program;
}

/// Of `dsde_sound_structures`.
pub mod sound_structures {
    pub use dsde_sound_structures::{
        components_are_sure, gathered_fits, may_translate, ports_are_lawful, reach_covers,
        sent_fits, structures_are_sure, top_is_declared, top_is_sure, translates_exactly,
        translations_keep_types, types_are_lawful,
    };
}

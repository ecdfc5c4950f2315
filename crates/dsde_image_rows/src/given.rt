//! What crates below give, for those above: each under the name of its crate.

/// Of `dsde_sim_telling`.
pub mod sim_telling {
    pub use dsde_sim_starting::given::sim_telling::{copy_path, tell_outs};
}

/// Of `dsde_sound_expressions`.
pub mod sound_expressions {
    pub use dsde_sound_expressions::bodies_stand;
}

/// Of `dsde_sound_structures`.
pub mod sound_structures {
    pub use dsde_sound_structures::{
        ports_are_lawful, top_is_declared, top_is_sure, types_are_lawful,
    };
}

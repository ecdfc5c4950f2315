//! What crates below give, for those above: each under the name of its crate.

/// Of `dsde_atomic`.
pub mod atomic {
    pub use dsde_sim_gathering::given::atomic::{
        is_network, leaf_moved, network_in, network_out, next_event, output_leaf, ports_in,
        ports_out, top_args,
    };
}

/// Of `dsde_check_tables`.
pub mod check_tables {
    pub use dsde_executive::given::check_tables::narrow;
}

/// Of `dsde_eval`.
pub mod eval {
    pub use dsde_sim_gathering::given::eval::translate;
}

/// Of `dsde_executive`.
pub mod executive {
    pub use dsde_executive::structure;
}

/// Of `dsde_program`.
pub mod program {
    pub use dsde_executive::given::program::Program;
}

/// Of `dsde_sim_gathering`.
pub mod sim_gathering {
    pub use dsde_sim_gathering::{Inboxes, inboxes_of, ins_of};
}

/// Of `dsde_sim_telling`.
pub mod sim_telling {
    pub use dsde_sim_telling::{at, below, boss_of, copy_path, tell_drop, tell_gets, tell_outs};
}

/// Of `dsde_sound_structures`.
pub mod sound_structures {
    pub use dsde_executive::given::sound_structures::{
        components_are_sure, gathered_fits, may_translate, ports_are_lawful, reach_covers,
        sent_fits, structures_are_sure, top_is_declared, top_is_sure, translates_exactly,
        translations_keep_types, types_are_lawful,
    };
}

//! What crates below give, for those above: each under the name of its crate.

/// Of `dsde_atomic`.
pub mod atomic {
    pub use dsde_sim_starting::given::atomic::{
        leaf_moved, network_in, network_out, output_leaf, ports_in, ports_out, top_args,
    };
}

/// Of `dsde_check_tables`.
pub mod check_tables {
    pub use dsde_sim_starting::given::check_tables::narrow;
}

/// Of `dsde_eval`.
pub mod eval {
    pub use dsde_sim_starting::given::eval::translate;
}

/// Of `dsde_program`.
pub mod program {
    pub use dsde_sim_starting::given::program::Program;
}

/// Of `dsde_sim_gathering`.
pub mod sim_gathering {
    pub use dsde_sim_starting::given::sim_gathering::{Inboxes, inboxes_of, ins_of};
}

/// Of `dsde_sim_starting`.
pub mod sim_starting {
    pub use dsde_sim_starting::{by_port, is_due, net_of, output, sources_of, start, structure_of};
}

/// Of `dsde_sim_telling`.
pub mod sim_telling {
    pub use dsde_sim_starting::given::sim_telling::{
        at, below, boss_of, copy_path, tell_drop, tell_gets,
    };
}

/// Of `dsde_sound_structures`.
pub mod sound_structures {
    pub use dsde_sim_starting::given::sound_structures::{
        gathered_fits, may_translate, reach_covers, sent_fits, translates_exactly,
        translations_keep_types,
    };
}

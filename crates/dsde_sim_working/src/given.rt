//! What crates below give, for those above: each under the name of its crate.

/// Of `dsde_atomic`.
pub mod atomic {
    pub use dsde_sim_moving::given::atomic::{network_in, network_out, ports_in};
}

/// Of `dsde_check_tables`.
pub mod check_tables {
    pub use dsde_sim_moving::given::check_tables::narrow;
}

/// Of `dsde_program`.
pub mod program {
    pub use dsde_sim_moving::given::program::Program;
}

/// Of `dsde_sim_movers`.
pub mod sim_movers {
    pub use dsde_sim_movers::{leaves_have_paths, movers_are_walked};
}

/// Of `dsde_sim_starting`.
pub mod sim_starting {
    pub use dsde_sim_moving::given::sim_starting::{by_port, is_due};
}

/// Of `dsde_sim_telling`.
pub mod sim_telling {
    pub use dsde_sim_moving::given::sim_telling::at;
}

/// Of `dsde_sound_structures`.
pub mod sound_structures {
    pub use dsde_sim_moving::given::sound_structures::{sent_fits, translations_keep_types};
}

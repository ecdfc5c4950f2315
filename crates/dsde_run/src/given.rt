//! What crates below give, for those above: each under the name of its crate.

/// Of `dsde_core`.
pub mod core_engine {
    pub use dsde_core::Core;
}

/// Of `dsde_image_rows`.
pub mod image_rows {
    pub use dsde_image_rows::{images_are_restored, images_are_written, rows_are_right};
}

/// Of `dsde_program`.
pub mod program {
    pub use dsde_trace::given::program::Program;
}

/// Of `dsde_sim_moving`.
pub mod sim_moving {
    pub use dsde_core::given::sim_moving::{move_sim, next_time, parts};
}

/// Of `dsde_sim_telling`.
pub mod sim_telling {
    pub use dsde_image_rows::given::sim_telling::tell_outs;
}

/// Of `dsde_sim_working`.
pub mod sim_working {
    pub use dsde_core::given::sim_working::{
        chosen, fitting_trees_are_named, is_taken, items_at, programs_lead_on, received,
        sent_by_root, started, turn_time,
    };
}

/// Of `dsde_trace`.
pub mod trace {
    pub use dsde_trace::Pick;
}

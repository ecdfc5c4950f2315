//! What crates below give, for those above: each under the name of its crate.

/// Of `dsde_sim_moving`.
pub mod sim_moving {
    pub use dsde_core_moving::given::sim_moving::{move_sim, next_time, parts};
}

/// Of `dsde_sim_working`.
pub mod sim_working {
    pub use dsde_core_outputs::given::sim_working::{
        chosen, fitting_trees_are_named, is_taken, items_at, programs_lead_on, received,
        sent_by_root, started, turn_time,
    };
}

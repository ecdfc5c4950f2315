//! What crates below give, for those above: each under the name of its crate.

/// Of `dsde_core_flat`.
pub mod core_flat {
    pub use dsde_core_moves::given::core_flat::{
        Planted, Spot, compact_schedule, due_time, leaf_at, paths_are_short, plant,
    };
}

/// Of `dsde_core_moves`.
pub mod core_moves {
    pub use dsde_core_moves::{Flat, Phase, Sent};
}

/// Of `dsde_program`.
pub mod program {
    pub use dsde_sim_starting::given::program::Program;
}

/// Of `dsde_sim_movers`.
pub mod sim_movers {
    pub use dsde_sim_movers::{
        advances_are_delivered, room_is_kept, trees_stand, turns_move_one_by_one,
    };
}

/// Of `dsde_sim_moving`.
pub mod sim_moving {
    pub use dsde_core_moves::given::sim_moving::{move_sim, next_time, parts};
}

/// Of `dsde_sim_telling`.
pub mod sim_telling {
    pub use dsde_sim_starting::given::sim_telling::tell_outs;
}

//! What crates below give, for those above: each under the name of its crate.

/// Of `dsde_atomic`.
pub mod atomic {
    pub use dsde_sim_changing::given::atomic::{output_leaf, ports_out};
}

/// Of `dsde_check_tables`.
pub mod check_tables {
    pub use dsde_sim_changing::given::check_tables::narrow;
}

/// Of `dsde_core_flat`.
pub mod core_flat {
    pub use dsde_core_flat::{
        Due, Planted, Spot, compact_schedule, due_time, graft_kids, leaf_at, lone_due_wait,
        outputs_ask_the_due, pass_due, paths_are_short, plant, turn_due,
    };
}

/// Of `dsde_eval`.
pub mod eval {
    pub use dsde_sim_changing::given::eval::translate;
}

/// Of `dsde_grove`.
pub mod grove {
    pub use dsde_core_flat::given::grove::Grove;
}

/// Of `dsde_program`.
pub mod program {
    pub use dsde_sim_changing::given::program::Program;
}

/// Of `dsde_routes_table`.
pub mod routes_table {
    pub use dsde_repair_walks::given::routes_table::RouteTable;
}

/// Of `dsde_sim_moving`.
pub mod sim_moving {
    pub use dsde_sim_moving::{copy_path, move_sim, next_time, parts};
}

/// Of `dsde_sim_starting`.
pub mod sim_starting {
    pub use dsde_sim_changing::given::sim_starting::is_due;
}

/// Of `dsde_sim_telling`.
pub mod sim_telling {
    pub use dsde_sim_changing::given::sim_telling::at;
}

/// Of `dsde_sound_structures`.
pub mod sound_structures {
    pub use dsde_sim_changing::given::sound_structures::{
        may_translate, reach_covers, sent_fits, translates_exactly,
    };
}

//! What crates below give, for those above: each under the name of its crate.

/// Of `dsde_atomic`.
pub mod atomic {
    pub use dsde_core_moves::given::atomic::ports_out;
}

/// Of `dsde_core_flat`.
pub mod core_flat {
    pub use dsde_core_moves::given::core_flat::{
        Due, Spot, leaf_at, lone_due_wait, outputs_ask_the_due, pass_due, turn_due,
    };
}

/// Of `dsde_core_moves`.
pub mod core_moves {
    pub use dsde_core_moves::{Flat, Mover, Movers, Phase, Sent, kind_of};
}

/// Of `dsde_routes_pushing`.
pub mod routes_pushing {
    pub use dsde_routes_pushing::push_equals_gather;
}

/// Of `dsde_routes_table`.
pub mod routes_table {
    pub use dsde_core_moves::given::routes_table::RouteTable;
}

//! What crates below give, for those above: each under the name of its crate.

/// Of `dsde_core_parcels`.
pub mod core_parcels {
    pub use dsde_core_parcels::into_ports;
}

/// Of `dsde_sim_working`.
pub mod sim_working {
    pub use dsde_sim_working::{
        chosen, fitting_trees_are_named, is_taken, items_at, programs_lead_on, received,
        sent_by_root, started, turn_time,
    };
}

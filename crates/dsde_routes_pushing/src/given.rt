//! What crates below give, for those above: each under the name of its crate.

/// Of `dsde_sim_movers`.
pub mod sim_movers {
    pub use dsde_sim_movers::{
        deliveries_are_found, leaves_have_deliveries, leaves_have_paths, movers_are_those,
    };
}

//! What crates below give, for those above: each under the name of its crate.

/// Of `dsde_sim_moving`.
pub mod sim_moving {
    pub use dsde_sim_moving::{next_time, parts};
}

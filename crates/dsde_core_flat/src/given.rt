//! What crates below give, for those above: each under the name of its crate.

/// Of `dsde_grove`.
pub mod grove {
    pub use dsde_grove::Grove;
}

/// Of `dsde_sim_movers`.
pub mod sim_movers {
    pub use dsde_sim_movers::{movers_take_their_steps, steps_tell_their_work};
}

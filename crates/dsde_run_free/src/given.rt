//! What crates below give, for those above: each under the name of its crate.

/// Of `dsde_core`.
pub mod core_engine {
    pub use dsde_run::given::core_engine::Core;
}

/// Of `dsde_image_rows`.
pub mod image_rows {
    pub use dsde_run::given::image_rows::{
        images_are_restored, images_are_written, rows_are_right,
    };
}

/// Of `dsde_run`.
pub mod run {
    pub use dsde_run::{
        Cut, RestoreError, Running, Summarized, Unresumed, big_model, restore, resume_turns,
        run_leaving, save, summarize,
    };
}

/// Of `dsde_sim_working`.
pub mod sim_working {
    pub use dsde_run::given::sim_working::programs_lead_on;
}

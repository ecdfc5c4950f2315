//! What crates below give, for those above: each under the name of its crate.

/// Of `dsde_sound_structures`.
pub mod sound_structures {
    pub use dsde_sim_starting::given::sound_structures::{
        components_are_sure, gathered_fits, reach_covers, sent_fits, structures_are_sure,
        top_is_sure,
    };
}

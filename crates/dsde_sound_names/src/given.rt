//! What crates below give, for those above: each under the name of its crate.

/// Of `dsde_executive_plans`.
pub mod executive_plans {
    pub use dsde_executive_plans::plans_are_in_order;
}

/// Of `dsde_sound_expressions`.
pub mod sound_expressions {
    pub use dsde_sound_expressions::{
        blocks_agree, bodies_stand, expressions_agree, functions_agree, known_is_within,
        models_are_known, structures_stand, tops_stand,
    };
}

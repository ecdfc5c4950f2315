//! What crates below give, for those above: each under the name of its crate.

/// Of `dsde_eval_tables`.
pub mod eval_tables {
    pub use dsde_eval_tables::{Evaluator, GREATEST_HEIGHT, slots_of};
}

/// Of `dsde_structure`.
pub mod structure {
    pub use dsde_executive_plans::given::structure::Plan;
}

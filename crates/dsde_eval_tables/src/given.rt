//! What crates below give, for those above: each under the name of its crate.

/// Of `dsde_eval_operators`.
pub mod eval_operators {
    pub use dsde_eval_short::given::eval_operators::{int_of, items_of, truth_of};
}

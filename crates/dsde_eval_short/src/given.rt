//! What crates below give, for those above: each under the name of its crate.

/// Of `dsde_eval_operators`.
pub mod eval_operators {
    pub use dsde_eval_operators::{
        denied, indexed, int_of, items_of, listed, negated, of_one, of_three, of_two, operated,
        operated_on, option_of, parts_of, place_in, reckoned, reckons, truth_of,
    };
}

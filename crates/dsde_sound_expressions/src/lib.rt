//! The laws of expressions, blocks and functions: in a model in which nothing is wrong each has its
//! type where it stands, and means in tables what it means over names. Definitions and laws; no code.
#![tactic(auto)]

mod block_law;
mod expression_law;
mod function_law;
mod grammar_law;
mod place_law;

pub use block_law::blocks_agree;
pub use expression_law::expressions_agree;
pub use function_law::{functions_agree, functions_stand};
pub use grammar_law::{shaped_is_proper, shaped_items_are_proper};
pub use place_law::{
    bodies_stand, known_is_within, models_are_known, structures_stand, tops_stand,
};

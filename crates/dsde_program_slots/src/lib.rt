//! The steps of a resolution that walk no expression: the slots of names that are seen, and the
//! numbers and types of what expressions and components name.
#![tactic(auto)]

mod bodies;
pub mod given;
mod numbers;
mod scope;
mod typing;

pub use bodies::{body_scope, params_scope, ports_scope, see_inputs};
pub use numbers::{field_number, func_number, model_id, model_number, type_number, variant_number};
pub use scope::{bind, slot_of, slot_type};
pub use typing::{builtin_type, field_type, func_type, held_in, item_in};

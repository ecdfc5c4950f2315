//! What a model declares, in values that are owned: its types, and its models with their parameters,
//! ports and state variables.
#![tactic(auto)]

mod fields;
pub mod given;
mod infos;
mod types;
mod whole;

pub use infos::infos_of;
pub use types::types_of;
pub use whole::whole_of;

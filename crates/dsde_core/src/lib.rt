//! The simulator of a program whose tree lies in a grove: the tree is laid into it, and read back out
//! of it, copied; and a turn touches only what is due or receives something, and what a changed
//! structure names.
#![tactic(auto)]

mod engine;
pub mod given;
mod held;
mod links;
mod planting;
mod showing;
mod telling;
mod turning;
mod whole;

pub use engine::Core;
pub use planting::flat_of;
pub use turning::turn;
pub use whole::tree_of;

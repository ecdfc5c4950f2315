//! Assignments of a list to the slot in which it stands already: what adds, replaces or takes away
//! items is done to the list where it is.
#![tactic(auto)]

mod change;
pub mod given;
mod in_slot;
mod laws;
mod lists;

pub use change::{Change, Which, own_change};
pub use in_slot::{change_slot, put_slot};
pub use laws::changes_are_assignments;

//! The movers of a turn in a lawful order that is drawn, the walk through a tree that finds them with
//! what comes to each, and the step of one of them where it stands.
#![tactic(auto)]

mod asked;
pub mod given;
mod kids;
mod laws;
mod mover;
mod moves;
mod order;
mod seat;
mod stepping;
mod walk;

pub use laws::{drawn_advances_agree, drawn_turns_agree, paths_in_order_are_orderly};
pub use mover::Mover;
pub use order::order_of;
pub use seat::seat_of;
pub use stepping::step;
pub use walk::movers_in;

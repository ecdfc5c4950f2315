//! The simulator of a program that walks the whole tree at each turn: its start and its turns, and the events that
//! they tell. No program runs by it; tests compare what other engines come to with what it does.
#![tactic(auto)]

mod as_run;
pub mod given;
mod plain;
mod turn;

pub use dsde_sim_tree::{Kid, Net, Sim, Step, TurnEnd};
pub use plain::Plain;

//! The rows of a wiring, kept while one of its networks changes, and whether a change fits it.
#![tactic(auto)]

mod apart;
mod fits;
mod handles;
mod names;
mod order;
mod parts;
mod repairing;
mod rows;
mod through;
mod ways;
mod wired;

pub use fits::fits_change;
pub use handles::{add_beneath, add_handles};
pub use repairing::repair;
pub use rows::net_rows;
pub use ways::{passing_ways, past_ways};
pub use wired::net_at;

//! The start of a tree, and what its parts send.
#![tactic(auto)]

mod asking;
pub mod given;
mod networks;
mod parts;
mod ports;

pub use asking::{output, sources_of};
pub use networks::{net_of, structure_of};
pub use parts::{start, start_kid};
pub use ports::{by_port, is_due};

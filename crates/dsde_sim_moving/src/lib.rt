//! The move message: how the parts of a tree move, and how structures change with them. What else an
//! engine asks of a tree is passed on: its start, what it sends, by how many ports it receives, how
//! many parts it has and when it is due.
#![tactic(auto)]

mod boxes;
pub mod given;
mod leaf;
mod net;
mod walk;

pub use boxes::{boxes_in, sources_in};
pub use dsde_sim_changing::given::sim_gathering::ins_of;
pub use dsde_sim_changing::given::sim_starting::{by_port, output, start};
pub use dsde_sim_changing::given::sim_telling::copy_path;
pub use dsde_sim_changing::{next_time, parts};
pub use leaf::{kind_of, take_move};
pub use net::boss_moves;
pub use walk::move_sim;

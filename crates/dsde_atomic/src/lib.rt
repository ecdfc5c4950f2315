//! The components of a program: their starts, what they send, and their moves, exactly as the
//! program means them.
#![tactic(auto)]

mod body;
mod due;
pub mod given;
mod init;
mod laws;
mod leaf;
mod moves;
mod ports;
mod top;

pub use dsde_faults::{LeafEnd, Site};
pub use dsde_system::given::formalism::{Inputs, Leaf, MoveKind};
pub use leaf::{leaf_moved, move_leaf, next_event, output_leaf, start_leaf};
pub use ports::{
    component_at, is_network, network_at, network_in, network_out, ports_in, ports_out,
};
pub use top::top_args;

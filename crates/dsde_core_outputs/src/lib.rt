//! The output phase of a turn of a flat state: those who are due are asked for what they send, it
//! goes along the rows, and whoever is due or gets something moves, in path order and with what it
//! receives.
#![tactic(auto)]

mod alone_laws;
mod called_laws;
mod due;
pub mod given;
mod network;
mod order;
mod root_laws;
mod single;
mod taking;
mod told;
mod turn;

pub use called_laws::{called_fit, called_live, called_move, due_are_called, root_is_sent};
pub use due::due_movers;
pub use network::net_movers;
pub use order::{have_few_ports, in_path_order};
pub use root_laws::{
    full_inboxes_call, outlets_fill_inboxes, outputs_come_of_asking, roots_are_networks,
};
pub use taking::take_gets;
pub use told::told_movers;
pub use turn::turn_movers;

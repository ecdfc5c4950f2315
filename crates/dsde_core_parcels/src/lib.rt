//! What is on its way in a turn of a flat state: what the due send, asked one after another, pushed
//! along rows into parcels and inboxes; and the laws that this is what the links of the tree carry,
//! and that who is called is who moves.
#![tactic(auto)]

mod along;
mod call_laws;
pub mod given;
mod inbox;
mod items;
mod outlet_laws;
mod outlets;
mod parcel;
mod parcels;
mod ports;
mod seat_laws;
mod sending;
mod traffic_laws;
mod turns;

pub use call_laws::empty_inboxes_tell_nobody;
pub use inbox::{Get, Inbox, inboxes};
pub use items::into_ports;
pub use outlet_laws::flat_outlets_are_sent;
pub use outlets::turn_outlets;
pub use parcel::{Outlet, Parcel, push_all, sorted};
pub use parcels::{inboxes_are_apart, inboxes_are_few, inboxes_are_received, parcels_are_received};
pub use ports::spread;
pub use seat_laws::live_leaves_fit;
pub use sending::{sent, sent_at};
pub use traffic_laws::{flat_outlets_go, flat_parcels_are_of_turns, flat_states_carry};
pub use turns::{called_are_movers, inboxes_are_delivered, inboxes_are_sent};

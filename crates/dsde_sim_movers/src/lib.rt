//! Laws of turns: what a start and a turn leave, what links deliver, that a turn is its movers one
//! after another, and that lawful orders of them come to the same. Definitions and laws; no code.
#![tactic(auto)]

mod delivery_laws;
mod mover_laws;
mod order_laws;
mod standing_laws;

pub use delivery_laws::{
    advances_are_delivered, leaves_have_deliveries, told_turns_are_delivered, turns_are_delivered,
    turns_deliver_in_order,
};
pub use mover_laws::{
    changes_are_compared, deliveries_are_found, executives_are_few, executives_take_structures,
    leaves_have_paths, movers_are_those, movers_stand_in_path_order, movers_take_their_steps,
    outputs_are_asked, parts_move_one_by_one, places_are_apart, room_is_kept,
    steps_tell_their_work, trees_are_measured, trees_are_named, turns_move_one_by_one,
};
pub use order_laws::{
    drawn_orders_are_lawful, lawful_movers_wait, lawful_orders_are_drawn, movers_are_orderly,
    movers_are_walked, movers_wait, orders_agree, path_order_is_lawful,
};
pub use standing_laws::trees_stand;

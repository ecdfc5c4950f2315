//! Routes of a wiring where one of its networks changes: the laws of what the definitions of routes
//! keep, and the walks that take rows out and put rows in.
#![tactic(auto)]

mod crossing;
mod ends;
mod found;
pub mod given;
mod laws;
mod place;
mod table;
mod walk;
mod way;

pub use crossing::{cross, direct_row, extend_all};
pub use ends::is_border_end;
pub use found::{find_kid, is_among};
pub use laws::{
    a_change_leaves_the_others, a_change_touches_few, a_change_touches_these, routes_are_gathered,
    rows_are_counted, rows_are_routes, rows_follow_a_change,
};
pub use place::{renew, take_out};
pub use table::{insert_all, remove_all};
pub use walk::{leaf_at, net_ways, ways_of_end, ways_of_kid};
pub use way::{Way, one_way};

//! Those who move in a turn of a flat state move one after another, each as it does in the tree:
//! after an executive the structure of its network changes, with its components, its wiring and its
//! rows.
#![tactic(auto)]

mod changing;
mod each;
mod executive;
mod following;
pub mod given;
mod one;
mod place;
mod refilling_laws;
mod restructuring;
mod rewiring_laws;
mod starting;

pub use changing::{Changed, change};
pub use each::movers_move;
pub use executive::executive_steps;
pub use refilling_laws::{changed_kids_stand_in_order, changes_start_the_fresh};
pub use restructuring::restructure;
pub use rewiring_laws::{fitting_trees_are_wired, handles_are_apart, wirings_change_alike};
pub use starting::start_fresh;

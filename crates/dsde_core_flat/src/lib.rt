//! The flat state: a tree of simulators that lies in a grove under handles, the wiring beside it, and
//! the tree for which both stand; who is due by its schedule; and trees that are put into it, whose
//! leaves are moved, not copied.
#![tactic(auto)]

mod compacting;
mod due;
mod due_laws;
mod front;
pub mod given;
mod grafting;
mod held;
mod order;
mod planted;
mod spot;
mod tree_laws;

pub use compacting::compact_schedule;
pub use due::{Due, pass_due, turn_due};
pub use due_laws::{due_leaves_are_asked, lone_due_wait, outputs_ask_the_due};
pub use front::due_time;
pub use grafting::{graft, graft_kids, schedule};
pub use held::{is_due_at, leaf_at};
pub use planted::{Planted, plant};
pub use spot::Spot;
pub use tree_laws::paths_are_short;

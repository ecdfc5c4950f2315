//! Single moves in a flat state: a component or an executive takes its transition where it lies, as
//! in the tree, and components leave a network with all that is beneath them; and the components of a
//! network compared with the entries of a new structure.
#![tactic(auto)]

mod comparing;
mod comparing_held;
mod component;
mod dropping;
mod flat;
pub mod given;
mod move_held;
mod moving;
mod phase;
mod walking;

pub use comparing::{fresh_entries, names_lost, survivors};
pub use component::component_steps;
pub use dropping::drop_others;
pub use dsde_sim_moving::kind_of;
pub use flat::{Flat, Mover};
pub use move_held::{put_leaf, put_moved};
pub use moving::component_moves;
pub use phase::{Movers, Phase, Sent};

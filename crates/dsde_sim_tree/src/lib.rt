//! The tree of simulators: what a run tells, how a tree starts, what it sends, how its parts move,
//! and turns. Types and definitions over the formalism; no code, and no word on the language of
//! models.
#![tactic(auto)]

mod event;
mod fault;
pub mod given;
mod sim;
mod step;

pub use event::{Event, Finish, InputKind};
pub use fault::{Fault, TurnEnd};
pub use sim::{DEEPEST, Kid, Net, Sim};
pub use step::{MOST_PARTS, Step};

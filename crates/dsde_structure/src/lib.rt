//! The structure of a network: its components, its links and what they carry, and which components
//! survive where another structure follows.
#![tactic(auto)]

pub mod given;
mod laws;
mod plan;
mod sources;
mod survival;

pub use laws::{
    comparison_is_a_split, links_carry_in_order, nothing_comes_without_links,
    survivors_keep_their_roles,
};
pub use plan::{Change, End, Entry, Link, Part, Plan, Via};
pub use sources::{Given, Sources};
pub use survival::{compare_plans, survives};

//! The first wrong thing of a structure.
#![tactic(auto)]

mod components;
mod ends;
mod families;
mod items;
mod links;
mod site;
mod structures;
mod translations;
mod values;

pub use components::args;
pub use structures::structure;

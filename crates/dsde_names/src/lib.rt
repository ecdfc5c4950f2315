//! Tables of items that are found by name: in the order in which they came, each with its number, no two
//! with one name. Contracts see a table as the list of its items.
#![tactic(auto)]

mod entry;
mod named;
mod names;

pub use entry::Entry;
pub use named::Named;
pub use names::Names;

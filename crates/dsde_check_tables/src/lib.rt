//! What is known of a file where a part of it is looked at, in tables by name: contracts see each
//! table as the list of the rules.
#![tactic(auto)]

mod builtins;
mod entries;
mod known;
mod made;
mod text;
mod types;
mod word;
mod words;

pub use builtins::{Row, given_type, row_of};
pub use entries::{Callee, FamilyEntry, Local, Member, ModelEntry, PortEntry, TypeEntry};
pub use known::Known;
pub use made::Made;
pub use types::{copy_type, deeper, depth_at, depth_of, is_same, list_type, narrow, option_type};
pub use word::{Word, add_name};

//! The laws of structures and of what stands in them: the plan that the items of a network give, what
//! its links carry and its translations make, and that components come to values of their types, or
//! to faults; and which names models declare. Laws over definitions; no code.
#![tactic(auto)]

mod component_laws;
pub mod given;
mod input_law;
mod link_laws;
mod make_law;
mod structure_law;
mod translation_laws;

pub use component_laws::{components_are_sure, structures_are_sure, top_is_sure};
pub use input_law::{names_are_words, ports_are_lawful, top_is_declared, types_are_lawful};
pub use link_laws::{
    gathered_fits, may_translate, reach_covers, sent_fits, translates_exactly, wiring_carries,
};
pub use make_law::{makes_stand, spots_may_be_evaluated};
pub use structure_law::structures_agree;
pub use translation_laws::translations_keep_types;

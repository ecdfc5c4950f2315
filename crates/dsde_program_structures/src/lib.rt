//! Structures resolved, and the arguments of models: their expressions and translations are laid into
//! tables.
#![tactic(auto)]

mod arguments;
mod components;
mod ends;
mod families;
mod gate;
mod gates;
mod items;
mod links;
mod place;
mod structures;
mod translations;

pub use arguments::exprs;
pub use dsde_program_expressions::Resolver;
pub use dsde_program_expressions::given::program_slots::model_id;
pub use structures::Structures;

//! The executive of a network: the structure that its state defines, exactly as the program means it.
#![tactic(auto)]

pub mod given;
mod planning;

pub use dsde_faults::EvalEnd as StructureEnd;
pub use planning::structure;

//! Values under handles that are never given twice, and lists with reserved room.
#![tactic(auto)]

mod bank;
mod batch;
pub mod given;
mod handle;

pub use bank::Bank;
pub use batch::Batch;
pub use handle::Handle;

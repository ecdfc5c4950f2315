//! Lists and boxes that contracts see as what they hold, so that a value made of them equals
//! what a definition computes, and a copy equals its original.
#![tactic(auto)]

mod boxed;
mod decimal;
mod memory;
mod seq;
mod stem;

pub use boxed::Boxed;
pub use decimal::{append_decimal, append_signed_decimal};
pub use memory::Memory;
pub use seq::{Seq, Text};
pub use stem::Stem;

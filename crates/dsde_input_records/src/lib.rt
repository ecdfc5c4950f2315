//! What the records of an input are: lines, and the record that each of them spells; and the laws
//! that this reading is the record's one text read back. No code but the answer that an input ends
//! with.
#![tactic(auto)]

mod end;
mod laws;

pub use end::InputEnd;
pub use laws::{record_is_spelled, records_come_in_order, value_is_spelled};

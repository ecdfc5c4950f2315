//! What a bank gives out for a value.

/// What a bank gives out for a value: the number of its birth, and the slot that holds it. Handles
/// are ordered by birth.
#[derive(Clone, Copy, PartialEq, Eq, PartialOrd, Ord)]
pub struct Handle {
    pub birth: u64,
    pub slot: usize,
}

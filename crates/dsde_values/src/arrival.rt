//! The records of an input.

use crate::Value;
use dsde_lists::Seq;

/// A value at a port, which goes by its number, counted from 0.
#[derive(Drop)]
pub struct Item {
    pub port: u32,
    pub value: Value,
}

/// A record of the input: the values that come from outside at one time.
#[derive(Drop)]
pub struct Arrival {
    /// At most 2^63 - 1.
    pub time: u64,
    pub items: Seq<Item>,
    /// The number of its line, counted from 1; that of every line after number 2^64 - 1 is this.
    pub line: u64,
}

//! Rows: what a table of routes holds.

use crate::{Chain, Rank};
use dsde_bank::Handle;

/// One route through the links of a tree, from an out port of an atomic component or an executive, or
/// from an in port of the root, to an in port of one of these or to an out port of the root.
#[derive(Drop)]
pub struct Row {
    pub source: Handle,
    pub source_port: u32,
    pub target: Handle,
    pub target_port: u32,
    /// The numbers of its links, from the target back to the source.
    pub rank: Rank,
    /// The translations of its links that have one, from the source on.
    pub chain: Chain,
}

/// A way over links from a port of a source: part of a route, or a whole one.
#[derive(Drop)]
pub struct Way {
    pub source: Handle,
    pub port: u32,
    /// The numbers of its links, from its end back to the source.
    pub rank: Rank,
    /// The translations of its links that have one, from the source on.
    pub chain: Chain,
}

/// A way that ends at a port.
#[derive(Drop)]
pub struct Passing {
    pub port: u32,
    pub way: Way,
}

//! Ports of sources.

ghost use Rattle.std.specs.Prelude.{◌≡◌};
ghost use Rattle.std.proofs.Common.{rules};
ghost use Rattle.std.specs.Cmp.{partial_order_from_own_ties};
ghost use Rattle.std.specs.Cmp.Rules.{comparing};
ghost use Rattle.std.specs.Ordering.{as_partial_cmp};
ghost use Rattle.dsde_routes_table.specs.Source.{source_at, source_cmp};

use dsde_routes_wiring::given::bank::Handle;
use std::cmp::Ordering;

/// A port of a source.
#[derive(Clone, Copy, PartialEq, Eq)]
pub struct Source {
    birth: u64,
    slot: usize,
    port: u32,
}

impl Source {
    /// The port of this number of the part of a handle.
    pub fn new(handle: Handle, port: u32) -> Source
        ensures { result ≡ source_at handle port }
    {
        Source {
            birth: handle.birth,
            slot: handle.slot,
            port,
        }
    }
}

impl Ord for Source {
    ghost cmp = { source_cmp };

    ghost total = { Prim.search (comparing, rules) };

    ghost matches_partial_cmp = { Prim.search (comparing, rules) };

    ghost matches_eq = { Prim.search (comparing, rules) };

    fn cmp(&self, other: &Source) -> Ordering {
        // Nearly all births differ: the others are not looked at then.
        match self.birth.cmp(&other.birth) {
            Ordering::Equal => self.slot.cmp(&other.slot).then(self.port.cmp(&other.port)),
            order => order,
        }
    }
}

impl PartialOrd for Source {
    ghost partial_cmp = { as_partial_cmp source_cmp };

    ghost laws = { partial_order_from_own_ties (Prim.search (comparing, rules)) (Prim.search (comparing, rules)) };

    fn partial_cmp(&self, other: &Source) -> Option<Ordering> {
        Some(self.cmp(other))
    }
}

//! Ways over links.

ghost use Rattle.std.specs.Prelude.{◌≡◌, [], ◌∷◌, IfOk};

use dsde_bank::Handle;
use dsde_lists::Memory;
use dsde_routes_wiring::{Chain, Rank};
use dsde_values::Seq;
use std::alloc::Global;

/// A way from a source on, or on to a target: the numbers of its links, the last one first, and its
/// translations, the first one first.
#[derive(Drop)]
pub struct Way {
    pub handle: Handle,
    pub port: u32,
    pub rank: Rank,
    pub chain: Chain,
}

/// The one way of a part that is its own source and target.
pub fn one_way(alloc: Global, handle: Handle, port: u32) -> Result<Seq<Way>, Memory>
    ensures { IfOk result (λ ways. ways ≡ record { handle = handle; port = port; rank = []; chain = [] } ∷ []) }
{
    let mut ways = Seq::new(alloc);
    ways.push(Way {
        handle,
        port,
        rank: Rank::new(alloc),
        chain: Chain::new(alloc),
    })?;
    Ok(ways)
}

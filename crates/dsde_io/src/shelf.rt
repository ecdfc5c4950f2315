//! What a shelf does and tells.

ghost use Rattle.std.specs.Prelude.{◌≡◌, ◌≢◌, ◌<◌, ◌≤◌, ℕ, List, Option, length, IfOk, OnOk, IfSome, IsSomeAnd, IsErrOf};
ghost use Rattle.dsde_io.specs.Fault.{Rose};
ghost use Rattle.dsde_io.specs.Held.{ChangesOnly};

use dsde_values::{Memory, Text};
use std::alloc::Global;

/// Why a shelf loaded or stored nothing.
#[derive(Clone, Copy)]
pub enum ShelfEnd {
    /// There is nothing under the name.
    Absent,
    /// There are more bytes than the limit.
    TooLong,
    Failed,
    Memory,
}

impl From<Memory> for ShelfEnd {
    ghost use Rattle.std.specs.Prelude.{◌≡◌};
    ghost use Rattle.dsde_io.specs.declared.shelf.ShelfEnd.TheVariants.{Memory};

    ghost from_gives = { λ _ end. end ≡ Memory };

    fn from(_: Memory) -> ShelfEnd {
        ShelfEnd::Memory
    }
}

/// Where a run finds its model, and keeps what it saves: bytes under names.
pub trait Shelf {
    /// The bytes under each name, where the shelf tells them.
    ghost held: { Self → Option (List ℕ → Option (List ℕ)) };

    /// How many faults there were, up to 2^64 - 1.
    ghost faults: { Self → ℕ };

    /// The bytes under a name, at most `limit` of them. Nothing changes.
    fn load(&mut self, alloc: Global, name: &str, limit: u64) -> Result<Text, ShelfEnd>
        ensures told { IfOk result (λ bytes. IfSome (held self.old) (λ map. map name.now ≡ Some bytes)) }
        ensures within { IfOk result (λ bytes. length bytes ≤ limit) }
        ensures absent { IsErrOf result ShelfEnd.Absent → IfSome (held self.old) (λ map. map name.now ≡ None) }
        ensures too_long { IsErrOf result ShelfEnd.TooLong
            → IfSome (held self.old) (λ map. IsSomeAnd (map name.now) (λ bytes. limit < length bytes)) }
        ensures cause { IsErrOf result ShelfEnd.Failed → Rose (faults self.old) (faults self.new) }
        ensures counted { faults self.old ≤ faults self.new }
        ensures kept { held self.new ≡ held self.old };

    /// Puts bytes under a name, in place of what is there. After `Failed` the name may hold
    /// anything, and after `Memory` nothing has changed. `Absent` and `TooLong` do not come.
    fn store(&mut self, alloc: Global, name: &str, bytes: &[u8]) -> Result<(), ShelfEnd>
        ensures stored { OnOk result (IfSome (held self.new) (λ map. map name.now ≡ Some bytes.now)) }
        ensures others { ChangesOnly name.now (held self.old) (held self.new) }
        ensures unchanged { IsErrOf result ShelfEnd.Memory → held self.new ≡ held self.old }
        ensures not_absent { result ≢ Err ShelfEnd.Absent }
        ensures not_too_long { result ≢ Err ShelfEnd.TooLong }
        ensures cause { IsErrOf result ShelfEnd.Failed → Rose (faults self.old) (faults self.new) }
        ensures counted { faults self.old ≤ faults self.new };
}

//! Faults, as a start or a turn ends by them and as a trace tells them.

ghost use Rattle.std.specs.Prelude.{◌≡◌};
ghost use Rattle.dsde_sim_tree.specs.declared.fault.TurnEnd.TheVariants as turn_end;

use dsde_language::given::faults::{FaultKind, Site};
use dsde_values::{Memory, Path};

/// A fault as a trace tells it: the component's path, and the place in the model's text as a line
/// and a column, both counted from 1, columns in bytes.
#[derive(Drop)]
pub struct Fault {
    pub path: Path,
    pub site: Site,
    pub kind: FaultKind,
    pub line: u32,
    pub column: u32,
}

/// Why a start or a turn did not come to its end: a fault with its place, which is the index of a
/// token of the model's text, or want of memory.
#[derive(Drop)]
pub enum TurnEnd {
    Fault {
        path: Path,
        site: Site,
        kind: FaultKind,
        at: u32,
    },
    Memory,
}

impl From<Memory> for TurnEnd {
    ghost from_gives = { λ _ end. end ≡ turn_end.Memory };

    fn from(_memory: Memory) -> TurnEnd {
        TurnEnd::Memory
    }
}

//! How an evaluation ends that gives no value.

ghost use Rattle.std.specs.Prelude.{◌≡◌};
ghost use Rattle.dsde_faults.specs.declared.end.EvalEnd.TheVariants as eval_end;
ghost use Rattle.dsde_faults.specs.declared.end.LeafEnd.TheVariants as leaf_end;

use crate::{FaultKind, Site};
use dsde_lists::Memory;

/// Why an expression has no value, or a block did not come to its end. The number is the place of
/// the fault, which is the index of a token.
#[derive(Clone, Copy)]
pub enum EvalEnd {
    Fault(FaultKind, u32),
    Memory,
}

/// Why a component's start, output or move did not come to its end: a fault with the part of the
/// component in which it came and its place, which is the index of a token.
#[derive(Clone, Copy)]
pub enum LeafEnd {
    Fault(Site, FaultKind, u32),
    Memory,
}

impl From<Memory> for EvalEnd {
    ghost from_gives = { λ _ end. end ≡ eval_end.Memory };

    fn from(_memory: Memory) -> EvalEnd {
        EvalEnd::Memory
    }
}

impl From<Memory> for LeafEnd {
    ghost from_gives = { λ _ end. end ≡ leaf_end.Memory };

    fn from(_memory: Memory) -> LeafEnd {
        LeafEnd::Memory
    }
}

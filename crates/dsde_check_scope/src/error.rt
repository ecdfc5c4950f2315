//! Why a model is refused.

use dsde_language::WrongKind;
use dsde_lists::Memory;

/// Why a model is refused.
#[derive(Clone, Copy)]
pub enum CheckError {
    /// The first thing that is wrong in it, and its place, which is the index of a token.
    Wrong(WrongKind, u32),
    Memory,
}

impl From<Memory> for CheckError {
    ghost use Rattle.std.specs.Prelude.{◌≡◌};
    ghost use Rattle.dsde_check_scope.specs.declared.error.CheckError.TheVariants as end_of;

    ghost from_gives = { λ _ error. error ≡ end_of.Memory };

    fn from(_error: Memory) -> CheckError {
        CheckError::Memory
    }
}

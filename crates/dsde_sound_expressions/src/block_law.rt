//! A law of the statements of blocks.

ghost use Rattle.dsde_language.specs.Agreement.{BlocksAgree};

use crate::expressions_agree;

/// A law: the statements of a block in which nothing is wrong leave variables of their types or stop
/// at a fault, and do in tables what they do over names.
pub fn blocks_agree()
    ensures { BlocksAgree }
{
    expressions_agree();
}

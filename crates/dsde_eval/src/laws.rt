//! What holds of each model in which nothing is wrong.

ghost use Rattle.dsde_language.specs.Agreement.{BlocksAgree, ExpressionsAgree};
ghost use Rattle.dsde_sound_expressions.specs.Laws.{KnownIsWithin};
ghost use Rattle.dsde_sound_expressions.specs.Coded.{FunctionsAgree};

use dsde_sound_expressions::{blocks_agree, expressions_agree, functions_agree, known_is_within};

/// Laws: expressions, blocks and functions in which nothing is wrong have their types, and mean in
/// tables what they mean over names; and what is known at a place is known of the whole file.
pub(crate) fn laws()
    ensures expressions { ExpressionsAgree }
    ensures blocks { BlocksAgree }
    ensures known { KnownIsWithin }
    ensures functions { FunctionsAgree }
{
    expressions_agree();
    blocks_agree();
    known_is_within();
    functions_agree();
}

//! Laws of the functions of a model.

ghost use Rattle.dsde_sound_expressions.specs.Coded.{FunctionsAgree};
ghost use Rattle.dsde_sound_expressions.specs.Standing.{FunctionsStand};

use crate::{blocks_agree, expressions_agree, known_is_within, shaped_is_proper};

/// A law: each function of a model in which nothing is wrong takes values of its parameters' types,
/// comes to a value of its result's type or to a fault, and means in the model's tables what it means
/// over names.
pub fn functions_agree()
    ensures { FunctionsAgree }
{
    expressions_agree();
    blocks_agree();
    shaped_is_proper();
    known_is_within();
}

/// A law: each function of a model in which nothing is wrong has its text at its number, and stands
/// there in the tables: its statements as a block over its parameters, and its value, of the type of
/// its result, over the names behind them.
pub fn functions_stand()
    ensures { FunctionsStand }
{
    functions_agree();
    blocks_agree();
    shaped_is_proper();
    known_is_within();
}

//! The law of expressions.

ghost use Rattle.dsde_language.specs.Agreement.{ExpressionsAgree};

/// A law: an expression in which nothing is wrong comes to a value of its type or to a fault, and
/// means in tables what it means over names.
pub fn expressions_agree()
    ensures { ExpressionsAgree }
{}

//! The operators and the builtins of nodes.

ghost use Rattle.std.specs.Prelude.{◌≡◌};
ghost use Rattle.dsde_language.specs.DeclaredOperators.{sign_binary, builtin_of};
ghost use Rattle.dsde_language.specs.Expressions.{builtin_node};

use dsde_language::{Binary, Builtin, ExprId, Node};
use dsde_syntax::{Key, Sign};
use dsde_values::Seq;

/// The operator of a sign.
pub(crate) fn sign_binary(sign: Sign) -> Binary
    ensures { result ≡ sign_binary sign }
{
    match sign {
        Sign::Plus => Binary::Add,
        Sign::Minus => Binary::Sub,
        Sign::PlusBar => Binary::CapAdd,
        Sign::MinusBar => Binary::CapSub,
        Sign::PlusPlus => Binary::Join,
        Sign::Star => Binary::Mul,
        Sign::Slash => Binary::Div,
        Sign::Percent => Binary::Rem,
        Sign::StarBar => Binary::CapMul,
        Sign::EqualEqual => Binary::Equal,
        Sign::NotEqual => Binary::NotEqual,
        Sign::Less => Binary::Less,
        Sign::LessEqual => Binary::LessEqual,
        Sign::Greater => Binary::Greater,
        _ => Binary::GreaterEqual,
    }
}

/// The builtin of a word.
fn builtin_of(which: Key) -> Builtin
    ensures { result ≡ builtin_of which }
{
    match which {
        Key::Len => Builtin::Len,
        Key::Range => Builtin::Range,
        Key::Push => Builtin::Push,
        Key::Put => Builtin::Put,
        Key::Take => Builtin::Take,
        Key::Skip => Builtin::Skip,
        Key::Min => Builtin::Min,
        Key::Max => Builtin::Max,
        _ => Builtin::IsSome,
    }
}

/// The node of a builtin; `some` has one of its own.
pub(crate) fn builtin_node(which: Key, at: u32, parts: Seq<ExprId>) -> Node
    ensures { result ≡ builtin_node which at parts }
{
    if which == Key::SomeOf {
        if let Some(part) = parts.get(0) {
            return Node::Some(*part);
        }
    }
    Node::Builtin(builtin_of(which), at, parts)
}

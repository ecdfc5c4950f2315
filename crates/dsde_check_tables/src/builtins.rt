//! What builtins take and give.

ghost use Rattle.std.specs.Prelude.{◌≡◌, IfOk};
ghost use Rattle.dsde_language.specs.Judge.{row_of, given_type};

use crate::types::{list_type, option_type};
use dsde_language::{Gives, Part};
use dsde_syntax::Key;
use dsde_syntax::given::lists::Memory;
use dsde_values::Ty;
use std::alloc::Global;

/// A row of the table of builtins.
#[derive(Clone, Copy)]
pub struct Row {
    /// What the arguments are to be.
    pub parts: &'static [Part],
    /// The type of what it gives.
    pub gives: Gives,
    /// Whether it may have no value.
    pub may_fault: bool,
}

impl Row {
    fn new(parts: &'static [Part], gives: Gives, may_fault: bool) -> Row
        ensures parts { result.parts.now ≡ parts.now }
        ensures gives { result.gives ≡ gives }
        ensures may_fault { result.may_fault ≡ may_fault }
    {
        Row {
            parts,
            gives,
            may_fault,
        }
    }
}

/// The row of a builtin.
pub fn row_of(which: Key) -> Row
    ensures parts { result.parts.now ≡ (row_of which).parts }
    ensures gives { result.gives ≡ (row_of which).gives }
    ensures may_fault { result.may_fault ≡ (row_of which).may_fault }
{
    match which {
        Key::SomeOf => Row::new(&[Part::Any], Gives::Opt, false),
        Key::Len => Row::new(&[Part::List], Gives::Int, false),
        Key::IsSome => Row::new(&[Part::Opt], Gives::Bool, false),
        Key::Min | Key::Max => Row::new(&[Part::Int, Part::Int], Gives::Int, false),
        Key::Range => Row::new(&[Part::Int, Part::Int], Gives::Ints, true),
        Key::Push => Row::new(&[Part::List, Part::Item], Gives::List, true),
        Key::Put => Row::new(&[Part::List, Part::Int, Part::Item], Gives::List, true),
        Key::Take | Key::Skip => Row::new(&[Part::List, Part::Int], Gives::List, false),
        _ => Row::new(&[], Gives::Int, false),
    }
}

/// The type of what a builtin gives, where `T` is this.
pub fn given_type(alloc: Global, gives: Gives, item: Ty) -> Result<Ty, Memory>
    ensures { IfOk result (λ given. given ≡ given_type gives item) }
{
    match gives {
        Gives::Int => Ok(Ty::Int),
        Gives::Bool => Ok(Ty::Bool),
        Gives::Opt => option_type(alloc, item),
        Gives::List => list_type(alloc, item),
        Gives::Ints => list_type(alloc, Ty::Int),
    }
}

//! Types that a file declares.

ghost use Rattle.std.specs.Prelude.{◌≡◌, None, Some};
ghost use Rattle.std.specs.Option.{option_copied};
ghost use Rattle.dsde_values.specs.Value.{fields};
ghost use Rattle.dsde_values.specs.declared.types.Shape.TheVariants as shape;
ghost use Rattle.dsde_language.specs.Judge.{variants_in};

use crate::{Member, Word};
use dsde_language::given::names::Names;
use std::marker::Model;

#[derive(Drop)]
enum Parts<'m> {
    Variants(Names<Word<'m>>),
    Fields(Names<Member<'m>>),
}

/// A type that a file declares. Contracts see it as its shape.
#[derive(Drop)]
pub struct Made<'m> {
    parts: Parts<'m>,
}

impl<'m> Model for Made<'m> {
    ghost use Rattle.dsde_values.specs.declared.types.Shape.{Shape};
    ghost use Rattle.dsde_values.specs.declared.types.Shape.TheVariants as shape;
    ghost use Rattle.dsde_values.specs.contracts.types.Shape as whole;
    ghost use Rattle.dsde_check_tables.specs.declared.made.Parts.TheVariants as part;

    ghost Value = { Shape };

    ghost coded = { whole.the_row.coded };

    ghost view = { λ made. elim made.parts [ part.Variants variants ↦ shape.Enum variants | part.Fields members ↦ shape.Rec members ] };
}

impl<'m> Made<'m> {
    /// An enum of these variants.
    pub fn of_variants(variants: Names<Word<'m>>) -> Made<'m>
        ensures { result ≡ shape.Enum variants.entry }
    {
        Made {
            parts: Parts::Variants(variants),
        }
    }

    /// A record of these fields.
    pub fn of_fields(members: Names<Member<'m>>) -> Made<'m>
        ensures { result ≡ shape.Rec members.entry }
    {
        Made {
            parts: Parts::Fields(members),
        }
    }

    /// The variants of an enum.
    pub fn variants(&self) -> Option<&Names<Word<'m>>>
        ensures { option_copied result ≡ variants_in self.now }
    {
        match &self.parts {
            Parts::Variants(variants) => Some(variants),
            Parts::Fields(_) => None,
        }
    }

    /// The fields of a record.
    pub fn fields(&self) -> Option<&Names<Member<'m>>>
        ensures { option_copied result ≡ fields self.now }
    {
        match &self.parts {
            Parts::Variants(_) => None,
            Parts::Fields(fields) => Some(fields),
        }
    }
}

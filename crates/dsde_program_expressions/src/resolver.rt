//! What resolves the expressions of a file.

ghost use Rattle.std.specs.Prelude.{◌≡◌};

use dsde_language::ExprId;
use dsde_program_slots::given::check_tables::Known;
use dsde_values::Ty;
use std::alloc::Global;
use std::marker::Model;

/// Resolves the expressions of a file. Contracts see it as what is known of the file.
#[derive(Drop)]
pub struct Resolver<'m> {
    pub(crate) alloc: Global,
    pub(crate) known: &'m Known<'m>,
}

impl<'m> Model for Resolver<'m> {
    ghost use Rattle.dsde_language.specs.declared.known.Known.{Known};
    ghost use Rattle.dsde_language.specs.contracts.known.Known as whole;

    ghost Value = { Known };

    ghost coded = { whole.the_row.coded };

    ghost view = { λ resolver. resolver.known.now };
}

impl<'m> Resolver<'m> {
    /// Over what is known of a file by its text.
    pub fn new(alloc: Global, known: &'m Known<'m>) -> Resolver<'m>
        ensures { result ≡ known.now }
    {
        Resolver { alloc, known }
    }

    /// Where memory comes from.
    pub fn alloc(&self) -> Global {
        self.alloc
    }

    /// What is known of the file.
    pub fn known(&self) -> &'m Known<'m>
        ensures { result.now ≡ self.now }
    {
        self.known
    }
}

/// The number of an expression that is laid, and its type.
#[derive(Drop)]
pub struct Laid {
    pub number: ExprId,
    pub ty: Ty,
}

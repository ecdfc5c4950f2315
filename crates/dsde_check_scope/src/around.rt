//! What stands round an expression or a statement.

ghost use Rattle.std.specs.Prelude.{◌≡◌, false, true, OnOk};
ghost use Rattle.dsde_names.specs.Table.{is_among};
ghost use Rattle.dsde_language.specs.RuleTables.{binding_name};
ghost use Rattle.dsde_language.specs.Judge.{fresh, made, total};
ghost use Rattle.dsde_check_scope.specs.Says.{Says};

use crate::CheckError;
use crate::names::{apart, unbound};
use crate::seeing::seen_as;
use dsde_check_tables::{Known, Local, Word, depth_of};
use dsde_language::{Seen, WrongKind};
use dsde_names::Names;
use dsde_syntax::Id;
use dsde_values::Ty;
use std::alloc::Global;
use std::marker::Model;

/// What stands round an expression or a statement. Contracts see it as the rules' `Around`.
#[derive(Drop)]
pub struct Around<'m> {
    alloc: Global,
    known: &'m Known<'m>,
    reserved: &'m Names<Word<'m>>,
    has_elapsed: bool,
    sets_states: bool,
    is_total: bool,
}

impl<'m> Model for Around<'m> {
    ghost use Rattle.dsde_language.specs.declared.known.Around.{Around};
    ghost use Rattle.dsde_language.specs.contracts.known.Around as whole;

    ghost Value = { Around };

    ghost coded = { whole.the_row.coded };

    ghost view = { λ all. record { known = all.known.now; reserved = all.reserved.now; has_elapsed = all.has_elapsed; sets_states = all.sets_states; is_total = all.is_total } };
}

impl<'m> Around<'m> {
    /// Round what sees no `elapsed`, may not assign to state variables and may have no value, and
    /// where these names are reserved.
    pub fn new(alloc: Global, known: &'m Known<'m>, reserved: &'m Names<Word<'m>>) -> Around<'m>
        ensures { result ≡ record { known = known.now; reserved = reserved.now; has_elapsed = false; sets_states = false; is_total = false } }
    {
        Around {
            alloc,
            known,
            reserved,
            has_elapsed: false,
            sets_states: false,
            is_total: false,
        }
    }

    /// Round a block that may assign to state variables, and may see `elapsed`.
    pub fn moving(&self, has_elapsed: bool) -> Around<'m>
        ensures { result ≡ record { known = self.now.known; reserved = self.now.reserved; has_elapsed = has_elapsed; sets_states = true; is_total = false } }
    {
        Around {
            alloc: self.alloc,
            known: self.known,
            reserved: self.reserved,
            has_elapsed,
            sets_states: true,
            is_total: false,
        }
    }

    /// Round a translation, which always has a value.
    pub fn translating(&self) -> Around<'m>
        ensures { result ≡ record { known = self.now.known; reserved = self.now.reserved; has_elapsed = false; sets_states = false; is_total = true } }
    {
        Around {
            alloc: self.alloc,
            known: self.known,
            reserved: self.reserved,
            has_elapsed: false,
            sets_states: false,
            is_total: true,
        }
    }

    /// Where memory comes from.
    pub fn alloc(&self) -> Global {
        self.alloc
    }

    /// What is known of the file.
    pub fn known(&self) -> &Known<'m>
        ensures { result.now ≡ self.now.known }
    {
        self.known
    }

    /// Whether `elapsed` is seen.
    pub fn has_elapsed(&self) -> bool
        ensures { result ≡ self.now.has_elapsed }
    {
        self.has_elapsed
    }

    /// Whether state variables may be assigned to.
    pub fn sets_states(&self) -> bool
        ensures { result ≡ self.now.sets_states }
    {
        self.sets_states
    }

    /// A name that is bound differs from those of its body and from those in scope: `Duplicate` at
    /// it.
    pub fn fresh(&self, id: &Id, scope: &Names<Local<'_>>) -> Result<(), CheckError>
        ensures says { Says (fresh self.now id.now scope.now) result }
        ensures free { OnOk result (is_among binding_name scope.now id.now.name ≡ false) }
    {
        apart(self.reserved, id)?;
        unbound(scope, id)
    }

    /// What is seen of an expression whose type may be deeper than those of its parts: `Limit` at it
    /// where that is deeper than 64.
    pub fn made(&self, ty: Ty, height: u32, at: u32) -> Result<Seen, CheckError>
        ensures { Says (made self.now ty height at) result }
    {
        if depth_of(self.known.depths(), &ty) > 64 {
            return Err(CheckError::Wrong(WrongKind::Limit, at));
        }
        Ok(seen_as(ty, height, at))
    }

    /// What may have no value stands in no translation: `NotTotal` at it.
    pub fn total(&self, may_fault: bool, at: u32) -> Result<(), CheckError>
        ensures { Says (total self.now may_fault at) result }
    {
        if self.is_total && may_fault {
            return Err(CheckError::Wrong(WrongKind::NotTotal, at));
        }
        Ok(())
    }
}

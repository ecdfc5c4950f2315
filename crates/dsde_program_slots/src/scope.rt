//! Names that are seen, each at its slot.

ghost use Rattle.std.specs.Prelude.{◌≡◌, length, take, IfOk, OnOk, OnErr};
ghost use Rattle.dsde_language.specs.Names.{with_slot, slot_of};
ghost use Rattle.dsde_language.specs.Typing.{slot_type};

use dsde_check_tables::{Member, copy_type, narrow};
use dsde_language::given::names::Names;
use dsde_syntax::given::lists::Memory;
use dsde_values::Ty;
use std::alloc::Global;

/// Adds a name of this type at the next slot; one that is seen already keeps its own. Without memory
/// the scope stays as it was.
pub fn bind<'m>(scope: &mut Names<Member<'m>>, name: &'m [u8], ty: Ty) -> Result<(), Memory>
    ensures ok { OnOk result (scope.new ≡ with_slot scope.old name.now ty) }
    ensures front { OnOk result (take (length scope.old) scope.new ≡ scope.old) }
    ensures err { OnErr result (scope.new ≡ scope.old) }
{
    scope.insert(Member::new(name, ty))?;
    Ok(())
}

/// The slot of a name, or 0 where it is not seen.
pub fn slot_of(scope: &Names<Member<'_>>, name: &[u8]) -> Result<u32, Memory>
    ensures { IfOk result (λ slot. slot ≡ slot_of scope.now name.now) }
{
    narrow(scope.number_of(name).unwrap_or(0))
}

/// The type of a name, or `int` where it is not seen.
pub fn slot_type(alloc: Global, scope: &Names<Member<'_>>, name: &[u8]) -> Result<Ty, Memory>
    ensures { IfOk result (λ ty. ty ≡ slot_type scope.now name.now) }
{
    match scope.get(name) {
        Some(member) => copy_type(alloc, member.ty()),
        None => Ok(Ty::Int),
    }
}

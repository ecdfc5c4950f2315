//! The types of expressions in which nothing is wrong, by what the file says.

ghost use Rattle.std.specs.Prelude.{◌≡◌, IfOk};
ghost use Rattle.dsde_language.specs.Typing.{item_in, held_in, field_type, func_type, first_type, builtin_type};

use crate::scope::slot_type;
use dsde_check_tables::{Known, copy_type, given_type, row_of};
use dsde_language::Part;
use dsde_syntax::Key;
use dsde_syntax::given::lists::Memory;
use dsde_values::Ty;
use std::alloc::Global;

/// The type of a list's items.
pub fn item_in(ty: Ty) -> Ty
    ensures { result ≡ item_in ty }
{
    match ty {
        Ty::List(inner) => inner.into_inner(),
        _ => Ty::Int,
    }
}

/// The type of what an option holds.
pub fn held_in(ty: Ty) -> Ty
    ensures { result ≡ held_in ty }
{
    match ty {
        Ty::Opt(inner) => inner.into_inner(),
        _ => Ty::Int,
    }
}

/// The type of a record's field.
pub fn field_type(alloc: Global, known: &Known<'_>, ty: &Ty, name: &[u8]) -> Result<Ty, Memory>
    ensures { IfOk result (λ found. found ≡ field_type known.now ty.now name.now) }
{
    match known.fields_of(ty) {
        Some(fields) => slot_type(alloc, fields, name),
        None => Ok(Ty::Int),
    }
}

/// The type of what a function gives.
pub fn func_type(alloc: Global, known: &Known<'_>, name: &[u8]) -> Result<Ty, Memory>
    ensures { IfOk result (λ found. found ≡ func_type known.now name.now) }
{
    match known.funcs().get(name) {
        Some(func) => copy_type(alloc, func.gives()),
        None => Ok(Ty::Int),
    }
}

/// What `T` is by the type of a builtin's first argument.
fn first_type(parts: &[Part], own: Ty) -> Ty
    ensures { result ≡ first_type parts.now own }
{
    match parts.first() {
        Some(Part::Any) => own,
        Some(Part::List) => item_in(own),
        Some(Part::Opt) => held_in(own),
        _ => Ty::Int,
    }
}

/// The type of what a builtin gives, whose first argument has this type.
pub fn builtin_type(alloc: Global, which: Key, own: Ty) -> Result<Ty, Memory>
    ensures { IfOk result (λ found. found ≡ builtin_type which own) }
{
    let row = row_of(which);
    given_type(alloc, row.gives, first_type(row.parts, own))
}

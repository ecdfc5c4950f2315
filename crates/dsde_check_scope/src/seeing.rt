//! What is seen of a part of a model.

ghost use Rattle.std.specs.Prelude.{◌≡◌, Ok};
ghost use Rattle.dsde_language.specs.Steps.{above, within};
ghost use Rattle.dsde_language.specs.Types.{wanted, item_type, held_type};
ghost use Rattle.dsde_language.specs.Judge.{seen_as};
ghost use Rattle.dsde_check_scope.specs.Says.{Says};

use crate::CheckError;
use dsde_check_tables::{copy_type, is_same};
use dsde_language::{Seen, WrongKind};
use dsde_values::Ty;
use std::alloc::Global;

/// The height of what stands on parts of this height; counted up to 513.
pub fn above(height: u32) -> u32
    ensures { result ≡ above height }
{
    height.min(512) + 1
}

/// Parts are no higher than 512: `Limit` at the place of what they are parts of.
pub fn within(at: u32, height: u32) -> Result<(), CheckError>
    ensures { Says (within at height) result }
{
    if height > 512 {
        return Err(CheckError::Wrong(WrongKind::Limit, at));
    }
    Ok(())
}

/// What is seen of an expression of this type, on parts of this height.
pub fn seen_as(ty: Ty, height: u32, at: u32) -> Seen
    ensures { Ok result ≡ seen_as ty height at }
{
    Seen {
        ty,
        height: above(height),
        at,
    }
}

/// The type is the wanted one: `WrongType` at the expression.
pub fn wanted(ty: &Ty, seen: &Seen) -> Result<(), CheckError>
    ensures { Says (wanted ty.now seen.now) result }
{
    if !is_same(ty, &seen.ty) {
        return Err(CheckError::Wrong(WrongKind::WrongType, seen.at));
    }
    Ok(())
}

/// The type of a list's items: `WrongType` at an expression that is no list.
pub fn item_type(alloc: Global, seen: &Seen) -> Result<Ty, CheckError>
    ensures { Says (item_type seen.now) result }
{
    match &seen.ty {
        Ty::List(inner) => Ok(copy_type(alloc, inner.get())?),
        _ => Err(CheckError::Wrong(WrongKind::WrongType, seen.at)),
    }
}

/// The type of what an option holds: `WrongType` at an expression that is no option.
pub fn held_type(alloc: Global, seen: &Seen) -> Result<Ty, CheckError>
    ensures { Says (held_type seen.now) result }
{
    match &seen.ty {
        Ty::Opt(inner) => Ok(copy_type(alloc, inner.get())?),
        _ => Err(CheckError::Wrong(WrongKind::WrongType, seen.at)),
    }
}

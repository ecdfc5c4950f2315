//! Types as they are written.

ghost use Rattle.std.specs.Prelude.{◌≡◌};
ghost use Rattle.dsde_language.specs.Judge.{made_type, type_at, type_of, type_of_id};
ghost use Rattle.dsde_check_scope.specs.Says.{Says};

use crate::CheckError;
use dsde_check_tables::{Known, deeper, depth_at, narrow};
use dsde_language::{TypeSeen, WrongKind};
use dsde_lists::Boxed;
use dsde_syntax::{Id, TypeName};
use dsde_values::Ty;
use std::alloc::Global;

/// What is seen of a type as it is written: its identifier names an enum or a record that is
/// declared before, else `Unknown` at it, and it is no deeper than 64, else `Limit` at its first
/// token.
pub fn type_of(alloc: Global, known: &Known<'_>, ty: &TypeName) -> Result<TypeSeen, CheckError>
    ensures { Says (type_of known.now ty.now) result }
{
    match ty {
        TypeName::Int(_) => Ok(TypeSeen {
            ty: Ty::Int,
            depth: 0,
        }),
        TypeName::Bool(_) => Ok(TypeSeen {
            ty: Ty::Bool,
            depth: 0,
        }),
        TypeName::Named(id) => type_of_id(known, id),
        TypeName::List(at, inner) => {
            let seen = type_of(alloc, known, inner.get())?;
            let depth = deeper(seen.depth);
            made_type(Ty::List(Boxed::new(alloc, seen.ty)?), depth, *at)
        }
        TypeName::Opt(at, inner) => {
            let seen = type_of(alloc, known, inner.get())?;
            let depth = deeper(seen.depth);
            made_type(Ty::Opt(Boxed::new(alloc, seen.ty)?), depth, *at)
        }
    }
}

fn made_type(ty: Ty, depth: u32, at: u32) -> Result<TypeSeen, CheckError>
    ensures { Says (made_type ty depth at) result }
{
    if depth > 64 {
        return Err(CheckError::Wrong(WrongKind::Limit, at));
    }
    Ok(TypeSeen { ty, depth })
}

fn type_of_id(known: &Known<'_>, id: &Id) -> Result<TypeSeen, CheckError>
    ensures { Says (type_of_id known.now id.now) result }
{
    let Some(number) = known.before().number_of(id.name.as_slice()) else {
        return Err(CheckError::Wrong(WrongKind::Unknown, id.at));
    };
    let number = narrow(number)?;
    Ok(TypeSeen {
        ty: type_at(known, number),
        depth: depth_at(known.depths(), number),
    })
}

/// The type with this number: an enum or a record.
fn type_at(known: &Known<'_>, number: u32) -> Ty
    ensures { result ≡ type_at known.now number }
{
    match known.types().get(number as usize) {
        Some(made) if made.variants().is_some() => Ty::Enum(number),
        _ => Ty::Rec(number),
    }
}

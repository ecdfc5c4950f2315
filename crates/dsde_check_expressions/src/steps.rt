//! Steps of expressions that look at no further expression.

ghost use Rattle.std.specs.Prelude.{◌≡◌};
ghost use Rattle.dsde_values.specs.declared.types.Ty.TheVariants as own;
ghost use Rattle.dsde_language.specs.Types.{wanted, item_type, held_type};
ghost use Rattle.dsde_language.specs.Judge.{made, name_of, operand, sign_may_fault, compared};
ghost use Rattle.dsde_check_scope.specs.Says.{Says};
ghost use Rattle.dsde_check_expressions.specs.Parts.{none_of, empty_of, elapsed, compared_seen, other_seen, negated, unwrapped, sign_seen, item_seen, call_seen, list_seen, negative};

use dsde_check_scope::given::check_tables::{Callee, Local, list_type, option_type};
use dsde_check_scope::{
    Around, CheckError, copy_type, held_type, item_type, seen_as, type_of, wanted,
};
use dsde_language::{Seen, WrongKind};
use dsde_names::Names;
use dsde_syntax::{Id, Sign, TypeName};
use dsde_values::Ty;
use std::alloc::Global;

/// A list of items of this type: `Limit` at it where its type is deeper than 64.
pub(crate) fn made_list(
    around: &Around<'_>,
    item: Ty,
    height: u32,
    at: u32,
) -> Result<Seen, CheckError>
    ensures { Says (made around.now (own.List item) height at) result }
{
    around.made(list_type(around.alloc(), item)?, height, at)
}

/// `none<ty>`
pub(crate) fn none_of(around: &Around<'_>, at: u32, ty: &TypeName) -> Result<Seen, CheckError>
    ensures { Says (none_of around.now at ty.now) result }
{
    let seen = type_of(around.alloc(), around.known(), ty)?;
    around.made(option_type(around.alloc(), seen.ty)?, 0, at)
}

/// `empty<ty>`
pub(crate) fn empty_of(around: &Around<'_>, at: u32, ty: &TypeName) -> Result<Seen, CheckError>
    ensures { Says (empty_of around.now at ty.now) result }
{
    let seen = type_of(around.alloc(), around.known(), ty)?;
    made_list(around, seen.ty, 0, at)
}

/// `elapsed`, which some blocks see: else `Unknown` at it.
pub(crate) fn elapsed(around: &Around<'_>, at: u32) -> Result<Seen, CheckError>
    ensures { Says (elapsed around.now at) result }
{
    if !around.has_elapsed() {
        return Err(CheckError::Wrong(WrongKind::Unknown, at));
    }
    Ok(seen_as(Ty::Int, 0, at))
}

/// A name that is used: `Unknown` at one that is not in scope.
pub(crate) fn name_of(
    around: &Around<'_>,
    id: &Id,
    scope: &Names<Local<'_>>,
) -> Result<Seen, CheckError>
    ensures { Says (name_of around.now id.now scope.now) result }
{
    let Some(bound) = scope.get(id.name.as_slice()) else {
        return Err(CheckError::Wrong(WrongKind::Unknown, id.at));
    };
    around.made(copy_type(around.alloc(), bound.ty())?, 0, id.at)
}

/// What a sign takes on both sides and gives: `++` joins two lists of one type, and the others are of
/// whole numbers. `WrongType` at a left side of another type.
pub(crate) fn operand(alloc: Global, sign: Sign, left: Seen) -> Result<Ty, CheckError>
    ensures { Says (operand sign left) result }
{
    match sign {
        Sign::PlusPlus => {
            let item = item_type(alloc, &left)?;
            Ok(list_type(alloc, item)?)
        }
        _ => {
            wanted(&Ty::Int, &left)?;
            Ok(Ty::Int)
        }
    }
}

/// Whether a sign may have no value.
pub(crate) fn sign_may_fault(sign: Sign) -> bool
    ensures { result ≡ sign_may_fault sign }
{
    !matches!(sign, Sign::PlusBar | Sign::MinusBar | Sign::StarBar)
}

/// What a comparison takes on both sides: `==` and `!=` compare values of one type, and the others
/// whole numbers. `WrongType` at a left side of another type.
pub(crate) fn compared(sign: Sign, left: Seen) -> Result<Ty, CheckError>
    ensures { Says (compared sign left) result }
{
    match sign {
        Sign::EqualEqual | Sign::NotEqual => Ok(left.ty),
        _ => {
            wanted(&Ty::Int, &left)?;
            Ok(Ty::Int)
        }
    }
}

/// A comparison, or `or` and `and`, behind both sides: `WrongType` at a right side of another type.
pub(crate) fn compared_seen(own: Ty, height: u32, right: Seen, at: u32) -> Result<Seen, CheckError>
    ensures { Says (compared_seen own height right at) result }
{
    wanted(&own, &right)?;
    Ok(seen_as(Ty::Bool, height.max(right.height), at))
}

/// A value of this type, or another in its place: `WrongType` at another of another type.
pub(crate) fn other_seen(own: Ty, height: u32, other: Seen, at: u32) -> Result<Seen, CheckError>
    ensures { Says (other_seen own height other at) result }
{
    wanted(&own, &other)?;
    Ok(seen_as(own, height.max(other.height), at))
}

/// A side of `or` or `and` is bool: else `WrongType` at it.
pub(crate) fn truth(seen: Seen) -> Result<(), CheckError>
    ensures { Says (wanted own.Bool seen) result }
{
    wanted(&Ty::Bool, &seen)
}

/// `not e`, behind what is to be bool.
pub(crate) fn negated(seen: Seen, at: u32) -> Result<Seen, CheckError>
    ensures { Says (negated seen at) result }
{
    wanted(&Ty::Bool, &seen)?;
    Ok(seen_as(Ty::Bool, seen.height, at))
}

/// The type of a list's items: `WrongType` at what is no list.
pub(crate) fn item_of(alloc: Global, seen: Seen) -> Result<Ty, CheckError>
    ensures { Says (item_type seen) result }
{
    item_type(alloc, &seen)
}

/// The type of what an option holds: `WrongType` at what is none.
pub(crate) fn held(alloc: Global, seen: Seen) -> Result<Ty, CheckError>
    ensures { Says (held_type seen) result }
{
    held_type(alloc, &seen)
}

/// `e!`, behind an option.
pub(crate) fn unwrapped(around: &Around<'_>, first: Seen, at: u32) -> Result<Seen, CheckError>
    ensures { Says (unwrapped around.now first at) result }
{
    let inner = held_type(around.alloc(), &first)?;
    around.total(true, at)?;
    Ok(seen_as(inner, first.height, at))
}

/// What a sign makes of what stands on both sides, of the type that it takes: `WrongType` at a right
/// side of another type.
pub(crate) fn sign_seen(
    around: &Around<'_>,
    sign: Sign,
    ty: Ty,
    height: u32,
    right: Seen,
    at: u32,
) -> Result<Seen, CheckError>
    ensures { Says (sign_seen around.now sign ty height right at) result }
{
    wanted(&ty, &right)?;
    around.total(sign_may_fault(sign), at)?;
    Ok(seen_as(ty, height.max(right.height), at))
}

/// An item of a list by its index, which is a whole number.
pub(crate) fn item_seen(
    around: &Around<'_>,
    item: Ty,
    height: u32,
    index: Seen,
    at: u32,
) -> Result<Seen, CheckError>
    ensures { Says (item_seen around.now item height index at) result }
{
    wanted(&Ty::Int, &index)?;
    around.total(true, at)?;
    Ok(seen_as(item, height.max(index.height), at))
}

/// A call, behind its arguments. It is as much higher as the function's body is high.
pub(crate) fn call_seen(
    around: &Around<'_>,
    func: &Callee<'_>,
    height: u32,
    at: u32,
) -> Result<Seen, CheckError>
    ensures { Says (call_seen around.now func.now height at) result }
{
    around.total(true, at)?;
    let ty = copy_type(around.alloc(), func.gives())?;
    Ok(seen_as(ty, height.min(512) + func.height().min(512), at))
}

/// A list, behind its items.
pub(crate) fn list_seen(
    around: &Around<'_>,
    item: Ty,
    height: u32,
    at: u32,
) -> Result<Seen, CheckError>
    ensures { Says (list_seen around.now item height at) result }
{
    around.total(true, at)?;
    made_list(around, item, height, at)
}

/// `-e`, behind a whole number.
pub(crate) fn negative(around: &Around<'_>, at: u32, seen: Seen) -> Result<Seen, CheckError>
    ensures { Says (negative around.now at seen) result }
{
    wanted(&Ty::Int, &seen)?;
    around.total(true, at)?;
    Ok(seen_as(Ty::Int, seen.height, at))
}

//! Types.

ghost use Rattle.std.specs.Prelude.{◌≡◌, unwrap_or, slice_get, IfOk};
ghost use Rattle.dsde_values.specs.declared.types.Ty.TheVariants as own;
ghost use Rattle.dsde_language.specs.Types.{same, deeper, depth_of};

use dsde_syntax::given::lists::{Boxed, Memory};
use dsde_values::Ty;
use std::alloc::Global;

/// A type equal to this one.
pub fn copy_type(alloc: Global, ty: &Ty) -> Result<Ty, Memory>
    ensures { IfOk result (λ copy. copy ≡ ty.now) }
{
    match ty {
        Ty::Int => Ok(Ty::Int),
        Ty::Bool => Ok(Ty::Bool),
        Ty::Enum(number) => Ok(Ty::Enum(*number)),
        Ty::Rec(number) => Ok(Ty::Rec(*number)),
        Ty::List(part) => list_type(alloc, copy_type(alloc, part.get())?),
        Ty::Opt(part) => option_type(alloc, copy_type(alloc, part.get())?),
    }
}

/// `list<ty>`
pub fn list_type(alloc: Global, ty: Ty) -> Result<Ty, Memory>
    ensures { IfOk result (λ made. made ≡ own.List ty) }
{
    Ok(Ty::List(Boxed::new(alloc, ty)?))
}

/// `opt<ty>`
pub fn option_type(alloc: Global, ty: Ty) -> Result<Ty, Memory>
    ensures { IfOk result (λ made. made ≡ own.Opt ty) }
{
    Ok(Ty::Opt(Boxed::new(alloc, ty)?))
}

/// Whether two types are the same.
#[tactic(auto, unfolding(dsde_language::specs::Types::same))]
pub fn is_same(ty: &Ty, other: &Ty) -> bool
    ensures { result ≡ same ty.now other.now }
{
    match (ty, other) {
        (Ty::Int, Ty::Int) => true,
        (Ty::Bool, Ty::Bool) => true,
        (Ty::Enum(number), Ty::Enum(wanted)) => number == wanted,
        (Ty::Rec(number), Ty::Rec(wanted)) => number == wanted,
        (Ty::List(part), Ty::List(inner)) => is_same(part.get(), inner.get()),
        (Ty::Opt(part), Ty::Opt(inner)) => is_same(part.get(), inner.get()),
        _ => false,
    }
}

/// A depth one more than this; counted up to 65.
pub fn deeper(depth: u32) -> u32
    ensures { result ≡ deeper depth }
{
    depth.min(64) + 1
}

/// How deep a type is, where records are as deep as these numbers say; counted up to 65.
#[tactic(auto, unfolding(dsde_language::specs::Types::depth_of))]
pub fn depth_of(depths: &[u32], ty: &Ty) -> u32
    ensures { result ≡ depth_of depths.now ty.now }
{
    match ty {
        Ty::Int | Ty::Bool | Ty::Enum(_) => 0,
        Ty::Rec(number) => depth_at(depths, *number),
        Ty::List(part) | Ty::Opt(part) => deeper(depth_of(depths, part.get())),
    }
}

/// The depth of the record with this number.
pub fn depth_at(depths: &[u32], number: u32) -> u32
    ensures { result ≡ unwrap_or (slice_get depths.now number) 0 }
{
    match depths.get(number as usize) {
        Some(depth) => *depth,
        None => 0,
    }
}

/// A number of 32 bits. A text has fewer tokens than 2^32, so that no number of its parts is more.
pub fn narrow(number: usize) -> Result<u32, Memory>
    ensures { IfOk result (λ narrow. narrow ≡ number) }
{
    match u32::try_from(number) {
        Ok(narrow) => Ok(narrow),
        Err(_) => Err(Memory),
    }
}

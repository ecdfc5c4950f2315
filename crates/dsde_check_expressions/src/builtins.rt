//! What builtins take and give.

ghost use Rattle.dsde_language.specs.Judge.{row_of, part_type};
ghost use Rattle.dsde_check_scope.specs.Says.{Says};
ghost use Rattle.dsde_check_expressions.specs.Parts.{builtin_seen, part_fitted};

use dsde_check_scope::given::check_tables::{given_type, row_of};
use dsde_check_scope::{Around, CheckError, copy_type, held_type, item_type, wanted};
use dsde_language::{Fitted, Part, Seen};
use dsde_syntax::Key;
use dsde_values::Ty;
use std::alloc::Global;

/// What `T` is behind an argument, where it was this before: `WrongType` at an argument that is not
/// what it is to be.
fn part_type(alloc: Global, part: Part, before: Ty, seen: &Seen) -> Result<Ty, CheckError>
    ensures { Says (part_type part before seen.now) result }
{
    match part {
        Part::Any => Ok(copy_type(alloc, &seen.ty)?),
        Part::List => item_type(alloc, seen),
        Part::Opt => held_type(alloc, seen),
        Part::Int => {
            wanted(&Ty::Int, seen)?;
            Ok(before)
        }
        Part::Item => {
            wanted(&before, seen)?;
            Ok(before)
        }
    }
}

/// The same of what was seen of all arguments before: the height is that of the highest.
pub(crate) fn part_fitted(
    alloc: Global,
    part: Part,
    before: Fitted,
    seen: &Seen,
) -> Result<Fitted, CheckError>
    ensures { Says (part_fitted part before seen.now) result }
{
    let Fitted { ty, height } = before;
    Ok(Fitted {
        ty: part_type(alloc, part, ty, seen)?,
        height: height.max(seen.height),
    })
}

/// A builtin, behind its arguments.
pub(crate) fn builtin_seen(
    around: &Around<'_>,
    which: Key,
    at: u32,
    fitted: Fitted,
) -> Result<Seen, CheckError>
    ensures { Says (builtin_seen around.now (row_of which) at fitted) result }
{
    let row = row_of(which);
    around.total(row.may_fault, at)?;
    let ty = given_type(around.alloc(), row.gives, fitted.ty)?;
    around.made(ty, fitted.height, at)
}

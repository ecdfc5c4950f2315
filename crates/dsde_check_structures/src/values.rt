//! Values of a type that is wanted.

ghost use Rattle.std.specs.Prelude.{◌≡◌, OnOk};
ghost use Rattle.dsde_check_expressions.specs.given.check_scope.Says.{Says};
ghost use Rattle.dsde_check_structures.specs.Parts.{height_as};

use dsde_check_expressions::given::check_scope::{Around, CheckError, wanted};
use dsde_check_expressions::given::check_tables::Local;
use dsde_check_expressions::judge;
use dsde_names::Names;
use dsde_syntax::Expr;
use dsde_values::Ty;

/// The height of a value, which has this type.
pub(crate) fn height_as<'m>(
    around: &Around<'m>,
    ty: &Ty,
    value: &'m Expr,
    scope: &mut Names<Local<'m>>,
) -> Result<u32, CheckError>
    ensures says { Says (height_as around.now ty.now value.now scope.old) result }
    ensures keeps { OnOk result (scope.new ≡ scope.old) }
{
    let seen = judge(around, value, scope)?;
    wanted(ty, &seen)?;
    Ok(seen.height)
}

//! Components.

ghost use Rattle.std.specs.Prelude.{◌≡◌, OnOk};
ghost use Rattle.dsde_language.specs.RuleStructures.{args_of, comp_of, index_of};
ghost use Rattle.dsde_check_expressions.specs.given.check_scope.Says.{Says, Walks};

use crate::values::height_as;
use dsde_check_expressions::fit_all;
use dsde_check_expressions::given::check_scope::{Around, CheckError, above};
use dsde_check_expressions::given::check_tables::Local;
use dsde_language::WrongKind;
use dsde_names::Names;
use dsde_syntax::{Bracket, Expr, Id};
use dsde_values::Ty;

/// The height of an index, which is a whole number; 0 where there is none.
pub(crate) fn index_of<'m>(
    around: &Around<'m>,
    index: &'m Option<Bracket>,
    scope: &mut Names<Local<'m>>,
) -> Result<u32, CheckError>
    ensures says { Says (index_of around.now index.now scope.old) result }
    ensures keeps { OnOk result (scope.new ≡ scope.old) }
{
    let Some(bracket) = index else {
        return Ok(0);
    };
    height_as(around, &Ty::Int, &bracket.value, scope)
}

/// The greatest height of arguments of a model, which is declared before or later, else `Unknown`
/// at its identifier.
pub fn args<'m>(
    around: &Around<'m>,
    model: &Id,
    args: &'m [Expr],
    scope: &mut Names<Local<'m>>,
) -> Result<u32, CheckError>
    ensures says { Says (args_of around.now model.now args.now scope.old) result }
    ensures keeps { OnOk result (scope.new ≡ scope.old) }
{
    let Some(entry) = around.known().models().get(model.name.as_slice()) else {
        return Err(CheckError::Wrong(WrongKind::Unknown, model.at));
    };
    fit_all(around, model, args, entry.params(), scope)
}

/// The height of a component: its index, and then the arguments of its model.
pub(crate) fn comp<'m>(
    around: &Around<'m>,
    index: &'m Option<Bracket>,
    model: &Id,
    given: &'m [Expr],
    scope: &mut Names<Local<'m>>,
) -> Result<u32, CheckError>
    ensures walks { Walks (comp_of around.now index.now model.now given.now scope.old) result scope.new }
    ensures keeps { OnOk result (scope.new ≡ scope.old) }
{
    let height = index_of(around, index, scope)?;
    let more = args(around, model, given, scope)?;
    Ok(above(height.max(more)))
}

//! Functions.

ghost use Rattle.std.specs.Prelude.{[], map};
ghost use Rattle.dsde_language.specs.Judge.{judge};
ghost use Rattle.dsde_language.specs.Blocks.{func_height, func_in, func_of, return_of, walk, walk_all};
ghost use Rattle.dsde_check_expressions.specs.given.check_scope.Says.{Says, Walks};
ghost use Rattle.dsde_check_bodies.specs.Parts.{func_giving, func_made, func_over};

use crate::headers::{own_params, own_type, types_of};
use crate::statements::stmts;
use dsde_check_expressions::given::check_scope::{Around, CheckError, above, wanted, within};
use dsde_check_expressions::given::check_tables::{Callee, Known, Local};
use dsde_check_expressions::judge;
use dsde_names::Names;
use dsde_syntax::{Expr, Id, Stmt, TypeName, Typed};
use dsde_values::{Seq, Ty};
use std::alloc::Global;

/// A function, over what is declared before it.
pub fn func<'m>(
    alloc: Global,
    known: &Known<'m>,
    name: &'m Id,
    params: &'m [Typed],
    result_type: &'m TypeName,
    stmts: &'m [Stmt],
    value: &'m Expr,
) -> Result<Callee<'m>, CheckError>
    ensures { Says (func_of known.now name.now params.now result_type.now stmts.now value.now) result }
{
    let reserved = Names::new(alloc);
    let around = Around::new(alloc, known, &reserved);
    func_in(&around, name, params, result_type, stmts, value)
}

/// The function itself, with a name that stays as long as its text.
fn func_in<'m, 'n>(
    around: &Around<'m>,
    name: &'n Id,
    params: &'m [Typed],
    result_type: &TypeName,
    stmts: &'m [Stmt],
    value: &'m Expr,
) -> Result<Callee<'n>, CheckError>
    ensures { Says (func_in around.now name.now params.now result_type.now stmts.now value.now) result }
{
    let mut scope = own_params(around, params)?;
    func_over(around, name, result_type, stmts, value, &mut scope)
}

/// The function over its parameters.
fn func_over<'m, 'n>(
    around: &Around<'m>,
    name: &'n Id,
    result_type: &TypeName,
    stmts: &'m [Stmt],
    value: &'m Expr,
    scope: &mut Names<Local<'m>>,
) -> Result<Callee<'n>, CheckError>
    ensures { Says (func_over around.now name.now result_type.now stmts.now value.now scope.old) result }
{
    let own = own_type(around, result_type)?;
    func_giving(around, name, own.ty, stmts, value, scope)
}

/// The function over its parameters, with a result of this type.
fn func_giving<'m, 'n>(
    around: &Around<'m>,
    name: &'n Id,
    own: Ty,
    stmts: &'m [Stmt],
    value: &'m Expr,
    scope: &mut Names<Local<'m>>,
) -> Result<Callee<'n>, CheckError>
    ensures { Says (func_giving around.now name.now own stmts.now value.now scope.old) result }
{
    let types = types_of(around.alloc(), scope)?;
    let height = func_height(around, stmts, value, &own, scope)?;
    func_made(name, types, own, height)
}

/// The function, with parameters and a result of these types, whose statements have this height.
fn func_made(name: &Id, params: Seq<Ty>, own: Ty, height: u32) -> Result<Callee<'_>, CheckError>
    ensures { Says (func_made name.now params own height) result }
{
    within(name.at, height)?;
    Ok(Callee::new(name.name.as_slice(), params, own, above(height)))
}

/// The height of a function's highest statement, `return` among them.
fn func_height<'m>(
    around: &Around<'m>,
    body: &'m [Stmt],
    value: &'m Expr,
    own: &Ty,
    scope: &mut Names<Local<'m>>,
) -> Result<u32, CheckError>
    ensures { Says (func_height around.now body.now value.now own.now scope.old) result }
{
    let highest = sends_nothing(around, body, scope)?;
    let height = return_of(around, value, own, scope)?;
    Ok(highest.max(height))
}

/// The height of statements that send nothing.
fn sends_nothing<'m>(
    around: &Around<'m>,
    body: &'m [Stmt],
    scope: &mut Names<Local<'m>>,
) -> Result<u32, CheckError>
    ensures { Walks (walk_all (map (walk around.now []) body.now) 0 scope.old) result scope.new }
{
    let ports = Names::new(around.alloc());
    stmts(around, &ports, body, 0, scope)
}

/// A function's value, which has the type of its result.
fn return_of<'m>(
    around: &Around<'m>,
    value: &'m Expr,
    own: &Ty,
    scope: &mut Names<Local<'m>>,
) -> Result<u32, CheckError>
    ensures { Says (return_of (judge around.now value.now) own.now scope.old) result }
{
    let seen = judge(around, value, scope)?;
    wanted(own, &seen)?;
    Ok(above(seen.height))
}

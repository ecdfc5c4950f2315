//! Expressions, one after another.

ghost use Rattle.std.specs.Prelude.{◌≡◌, ◌++◌, length, IfOk, OnOk};
ghost use Rattle.dsde_language.specs.Expressions.{expr_id};
ghost use Rattle.dsde_program_expressions.specs.given.program_layout.Lay.{lay};
ghost use Rattle.dsde_program_expressions.specs.given.program_layout.LayItems.{lay_all};
ghost use Rattle.dsde_program_structures.specs.Parts.{lay_number};

use dsde_language::given::names::Names;
use dsde_language::{ExprId, Tables};
use dsde_lists::Memory;
use dsde_program_expressions::given::check_tables::Member;
use dsde_program_expressions::{Laid, Resolver};
use dsde_syntax::Expr;
use dsde_values::Seq;

/// Lays an expression behind tables, and gives its number and its type.
pub(crate) fn laid<'m>(
    resolver: &Resolver<'m>,
    expr: &'m Expr,
    scope: &mut Names<Member<'m>>,
    tables: &mut Tables,
) -> Result<Laid, Memory>
    ensures number { IfOk result (λ laid. laid.number ≡ expr_id (length tables.old.nodes)) }
    ensures ty { IfOk result (λ laid. laid.ty ≡ (lay resolver.now expr.now scope.old tables.old.nodes).ty) }
    ensures tables { OnOk result (tables.new ≡ record tables.old { nodes = (lay resolver.now expr.now scope.old tables.old.nodes).table }) }
    ensures kept { OnOk result (scope.new ≡ scope.old) }
{
    resolver.expr(expr, scope, &mut tables.nodes)
}

/// Lays an expression behind tables, and gives its number.
pub(crate) fn number<'m>(
    resolver: &Resolver<'m>,
    expr: &'m Expr,
    scope: &mut Names<Member<'m>>,
    tables: &mut Tables,
) -> Result<ExprId, Memory>
    ensures own { IfOk result (λ own. own ≡ (lay_number resolver.now expr.now scope.old tables.old).own) }
    ensures tables { OnOk result (tables.new ≡ (lay_number resolver.now expr.now scope.old tables.old).tables) }
    ensures kept { OnOk result (scope.new ≡ scope.old) }
{
    let laid = laid(resolver, expr, scope, tables)?;
    Ok(laid.number)
}

/// Lays expressions behind tables, over the names that are seen.
pub fn exprs<'m>(
    resolver: &Resolver<'m>,
    exprs: &'m [Expr],
    scope: &mut Names<Member<'m>>,
    tables: &mut Tables,
) -> Result<Seq<ExprId>, Memory>
    ensures own { IfOk result (λ numbers. numbers ≡ (lay_all resolver.now exprs.now scope.old tables.old).own) }
    ensures tables { OnOk result (tables.new ≡ (lay_all resolver.now exprs.now scope.old tables.old).tables) }
    ensures seen { OnOk result (scope.new ≡ (lay_all resolver.now exprs.now scope.old tables.old).scope) }
    ensures scope { OnOk result (scope.new ≡ scope.old) }
{
    let mut numbers = Seq::new(resolver.alloc());
    add_exprs(resolver, exprs, &mut numbers, scope, tables)?;
    Ok(numbers)
}

/// Lays expressions, and adds their numbers.
fn add_exprs<'m>(
    resolver: &Resolver<'m>,
    exprs: &'m [Expr],
    numbers: &mut Seq<ExprId>,
    scope: &mut Names<Member<'m>>,
    tables: &mut Tables,
) -> Result<(), Memory>
    ensures own { OnOk result (numbers.new ≡ numbers.old ++ (lay_all resolver.now exprs.now scope.old tables.old).own) }
    ensures tables { OnOk result (tables.new ≡ (lay_all resolver.now exprs.now scope.old tables.old).tables) }
    ensures seen { OnOk result (scope.new ≡ (lay_all resolver.now exprs.now scope.old tables.old).scope) }
    ensures scope { OnOk result (scope.new ≡ scope.old) }
{
    for own in exprs {
        numbers.push(number(resolver, own, scope, tables)?)?;
    }
    Ok(())
}

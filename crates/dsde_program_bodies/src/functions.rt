//! Functions.

ghost use Rattle.std.specs.Prelude.{◌≡◌, ◌≤◌, [], length, IfOk, OnOk};
ghost use Rattle.dsde_program_expressions.specs.given.program_layout.LayStatements.{func_parts, lay_func, lay_stmts};
ghost use Rattle.dsde_program_expressions.specs.given.program_layout.LayPieces.{put, roomy};

use crate::rooms::{close, open};
use crate::statements;
use crate::values::number_of;
use dsde_language::given::names::Names;
use dsde_language::{Act, FnCode, Tables};
use dsde_program_expressions::Resolver;
use dsde_program_expressions::given::check_tables::Member;
use dsde_program_expressions::given::program_slots::params_scope;
use dsde_syntax::given::lists::Memory;
use dsde_syntax::{Expr, Stmt, Typed};
use dsde_values::Seq;

/// Lays a function behind tables: its block, and the expression behind `return`.
pub fn func<'m>(
    resolver: &Resolver<'m>,
    params: &'m [Typed],
    stmts: &'m [Stmt],
    value: &'m Expr,
    tables: &mut Tables,
) -> Result<FnCode, Memory>
    ensures own { IfOk result (λ code. code ≡ (lay_func resolver.now params.now stmts.now value.now [] tables.old).own) }
    ensures tables { OnOk result (tables.new ≡ (lay_func resolver.now params.now stmts.now value.now [] tables.old).tables) }
{
    let mut scope = params_scope(resolver.alloc(), resolver.known(), params)?;
    braces(resolver, stmts, value, &mut scope, tables)
}

/// Lays what stands in the braces of a function, over its parameters.
fn braces<'m>(
    resolver: &Resolver<'m>,
    stmts: &'m [Stmt],
    value: &'m Expr,
    scope: &mut Names<Member<'m>>,
    tables: &mut Tables,
) -> Result<FnCode, Memory>
    ensures own { IfOk result (λ code. code ≡ record { block = record { 0 = length tables.old.blocks }; value = (func_parts resolver.now stmts.now value.now scope.old (roomy tables.old)).own.value }) }
    ensures tables { OnOk result (tables.new ≡ put (func_parts resolver.now stmts.now value.now scope.old (roomy tables.old)).tables (length tables.old.blocks) (func_parts resolver.now stmts.now value.now scope.old (roomy tables.old)).own.acts) }
{
    let block = open(resolver.alloc(), tables)?;
    let acts = acts_of(resolver, stmts, scope, tables)?;
    let value = number_of(resolver, value, scope, tables)?;
    close(tables, block, acts);
    Ok(FnCode { block, value })
}

/// Lays statements that send nothing.
fn acts_of<'m>(
    resolver: &Resolver<'m>,
    stmts: &'m [Stmt],
    scope: &mut Names<Member<'m>>,
    tables: &mut Tables,
) -> Result<Seq<Act>, Memory>
    ensures own { IfOk result (λ own. own ≡ (lay_stmts resolver.now [] stmts.now scope.old tables.old).own) }
    ensures tables { OnOk result (tables.new ≡ (lay_stmts resolver.now [] stmts.now scope.old tables.old).tables) }
    ensures scope { OnOk result (scope.new ≡ (lay_stmts resolver.now [] stmts.now scope.old tables.old).scope) }
    ensures grows { OnOk result (length tables.old.blocks ≤ length tables.new.blocks) }
{
    let outs = Names::new(resolver.alloc());
    statements::stmts(resolver, &outs, stmts, scope, tables)
}

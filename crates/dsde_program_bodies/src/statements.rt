//! Statements.

ghost use Rattle.std.specs.Prelude.{◌≡◌, ◌≤◌, length, take, IfOk, OnOk};
ghost use Rattle.dsde_program_expressions.specs.given.program_layout.LayPieces.{braced};
ghost use Rattle.dsde_program_expressions.specs.given.program_layout.LayStatements.{lay_stmt, lay_stmts};
ghost use Rattle.dsde_program_bodies.specs.Parts.{lay_arm, lay_arms, lay_for};

use crate::rooms::{close, open};
use crate::values::{items_of, let_of, number_of, send_of, set_of};
use dsde_language::given::names::Names;
use dsde_language::{Act, ActArm, BlockId, Tables};
use dsde_program_expressions::Resolver;
use dsde_program_expressions::given::check_tables::Member;
use dsde_syntax::given::lists::Memory;
use dsde_syntax::{Expr, Id, Stmt, StmtArm};
use dsde_values::Seq;

/// Lays a statement behind tables, where these out ports may be sent to. The scope is left as the
/// statement leaves it.
#[cycle(resolving)]
fn stmt<'m>(
    resolver: &Resolver<'m>,
    outs: &Names<Member<'_>>,
    stmt: &'m Stmt,
    scope: &mut Names<Member<'m>>,
    tables: &mut Tables,
) -> Result<Act, Memory>
    ensures own { IfOk result (λ own. own ≡ (lay_stmt resolver.now outs.now stmt.now scope.old tables.old).own) }
    ensures tables { OnOk result (tables.new ≡ (lay_stmt resolver.now outs.now stmt.now scope.old tables.old).tables) }
    ensures scope { OnOk result (scope.new ≡ (lay_stmt resolver.now outs.now stmt.now scope.old tables.old).scope) }
    ensures grows { OnOk result (length tables.old.blocks ≤ length tables.new.blocks) }
    ensures kept { OnOk result (take (length scope.old) scope.new ≡ scope.old) }
{
    match stmt {
        Stmt::Let { name, value, .. } => let_of(resolver, name, value, scope, tables),
        Stmt::Set { name, value } => set_of(resolver, name, value, scope, tables),
        Stmt::Send { port, value } => send_of(resolver, outs, port, value, scope, tables),
        Stmt::If { arms, other } => {
            let own = lay_arms(resolver, outs, arms.as_slice(), scope, tables)?;
            match other {
                Some(body) => {
                    let last = block(resolver, outs, body.as_slice(), scope, tables)?;
                    Ok(Act::If(own, Some(last)))
                }
                None => Ok(Act::If(own, None)),
            }
        }
        Stmt::For { name, list, body } => {
            for_of(resolver, outs, body.as_slice(), name, list, scope, tables)
        }
    }
}

/// Lays `for`, whose name is seen in its braces alone.
#[cycle(resolving)]
fn for_of<'m>(
    resolver: &Resolver<'m>,
    outs: &Names<Member<'_>>,
    body: &'m [Stmt],
    name: &'m Id,
    list: &'m Expr,
    scope: &mut Names<Member<'m>>,
    tables: &mut Tables,
) -> Result<Act, Memory>
    ensures own { IfOk result (λ own. own ≡ (lay_for resolver.now outs.now name.now list.now body.now scope.old tables.old).own) }
    ensures tables { OnOk result (tables.new ≡ (lay_for resolver.now outs.now name.now list.now body.now scope.old tables.old).tables) }
    ensures scope { OnOk result (scope.new ≡ (lay_for resolver.now outs.now name.now list.now body.now scope.old tables.old).scope) }
    ensures grows { OnOk result (length tables.old.blocks ≤ length tables.new.blocks) }
    ensures kept { OnOk result (scope.new ≡ scope.old) }
{
    let depth = scope.len();
    let own = items_of(resolver, name, list, scope, tables)?;
    let inner = block(resolver, outs, body, scope, tables)?;
    scope.truncate(depth);
    Ok(Act::For(own, inner))
}

/// Lays statements one behind another. The scope is left as the last leaves it.
#[cycle(resolving)]
pub(crate) fn stmts<'m>(
    resolver: &Resolver<'m>,
    outs: &Names<Member<'_>>,
    stmts: &'m [Stmt],
    scope: &mut Names<Member<'m>>,
    tables: &mut Tables,
) -> Result<Seq<Act>, Memory>
    ensures own { IfOk result (λ own. own ≡ (lay_stmts resolver.now outs.now stmts.now scope.old tables.old).own) }
    ensures tables { OnOk result (tables.new ≡ (lay_stmts resolver.now outs.now stmts.now scope.old tables.old).tables) }
    ensures scope { OnOk result (scope.new ≡ (lay_stmts resolver.now outs.now stmts.now scope.old tables.old).scope) }
    ensures grows { OnOk result (length tables.old.blocks ≤ length tables.new.blocks) }
    ensures kept { OnOk result (take (length scope.old) scope.new ≡ scope.old) }
{
    let mut acts = Seq::new(resolver.alloc());
    for each in stmts {
        acts.push(stmt(resolver, outs, each, scope, tables)?)?;
    }
    Ok(acts)
}

/// Lays a block in braces, whose names are seen in it alone, and gives its number.
#[cycle(resolving)]
pub(crate) fn block<'m>(
    resolver: &Resolver<'m>,
    outs: &Names<Member<'_>>,
    body: &'m [Stmt],
    scope: &mut Names<Member<'m>>,
    tables: &mut Tables,
) -> Result<BlockId, Memory>
    ensures own { IfOk result (λ own. own ≡ (braced (lay_stmts resolver.now outs.now body.now) scope.old tables.old).own) }
    ensures tables { OnOk result (tables.new ≡ (braced (lay_stmts resolver.now outs.now body.now) scope.old tables.old).tables) }
    ensures grows { OnOk result (length tables.old.blocks ≤ length tables.new.blocks) }
    ensures kept { OnOk result (scope.new ≡ scope.old) }
{
    let own = open(resolver.alloc(), tables)?;
    let depth = scope.len();
    let acts = stmts(resolver, outs, body, scope, tables)?;
    scope.truncate(depth);
    close(tables, own, acts);
    Ok(own)
}

/// Lays a condition and the block behind it.
#[cycle(resolving)]
fn lay_arm<'m>(
    resolver: &Resolver<'m>,
    outs: &Names<Member<'_>>,
    arm: &'m StmtArm,
    scope: &mut Names<Member<'m>>,
    tables: &mut Tables,
) -> Result<ActArm, Memory>
    ensures own { IfOk result (λ own. own ≡ (lay_arm resolver.now outs.now arm.now scope.old tables.old).own) }
    ensures tables { OnOk result (tables.new ≡ (lay_arm resolver.now outs.now arm.now scope.old tables.old).tables) }
    ensures scope { OnOk result (scope.new ≡ (lay_arm resolver.now outs.now arm.now scope.old tables.old).scope) }
    ensures grows { OnOk result (length tables.old.blocks ≤ length tables.new.blocks) }
    ensures kept { OnOk result (scope.new ≡ scope.old) }
{
    let cond = number_of(resolver, &arm.cond, scope, tables)?;
    let then = block(resolver, outs, arm.body.as_slice(), scope, tables)?;
    Ok(ActArm { cond, then })
}

/// Lays the arms of `if` one behind another.
#[cycle(resolving)]
fn lay_arms<'m>(
    resolver: &Resolver<'m>,
    outs: &Names<Member<'_>>,
    arms: &'m [StmtArm],
    scope: &mut Names<Member<'m>>,
    tables: &mut Tables,
) -> Result<Seq<ActArm>, Memory>
    ensures own { IfOk result (λ own. own ≡ (lay_arms resolver.now outs.now arms.now scope.old tables.old).own) }
    ensures tables { OnOk result (tables.new ≡ (lay_arms resolver.now outs.now arms.now scope.old tables.old).tables) }
    ensures scope { OnOk result (scope.new ≡ (lay_arms resolver.now outs.now arms.now scope.old tables.old).scope) }
    ensures grows { OnOk result (length tables.old.blocks ≤ length tables.new.blocks) }
    ensures kept { OnOk result (scope.new ≡ scope.old) }
{
    let mut found = Seq::new(resolver.alloc());
    for arm in arms {
        found.push(lay_arm(resolver, outs, arm, scope, tables)?)?;
    }
    Ok(found)
}

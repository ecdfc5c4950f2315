//! Statements.

ghost use Rattle.std.specs.Prelude.{◌≡◌, false, length, map, take, OnOk};
ghost use Rattle.dsde_names.specs.Table.{is_among};
ghost use Rattle.dsde_language.specs.RuleTables.{binding_name};
ghost use Rattle.dsde_language.specs.Judge.{judge};
ghost use Rattle.dsde_language.specs.Blocks.{arm_of, arms_walk, for_items, for_walk, inner, walk, walk_all, walk_arm};
ghost use Rattle.dsde_check_expressions.specs.given.check_scope.Says.{Says, Walks};

use crate::assignments::{let_of, send_to, set_to};
use dsde_check_expressions::given::check_scope::{
    Around, CheckError, above, bind, close, item_type,
};
use dsde_check_expressions::given::check_tables::{Local, PortEntry};
use dsde_check_expressions::{judge, test};
use dsde_language::{BindingKind, Seen};
use dsde_names::Names;
use dsde_syntax::{Expr, Id, Stmt, StmtArm};

/// The height of a statement, where the out ports among these may be sent to. The scope is left as
/// the statement leaves it.
#[cycle(walking)]
fn stmt<'m>(
    around: &Around<'m>,
    ports: &Names<PortEntry<'_>>,
    stmt: &'m Stmt,
    scope: &mut Names<Local<'m>>,
) -> Result<u32, CheckError>
    ensures walks { Walks (walk around.now ports.now stmt.now scope.old) result scope.new }
    ensures grows { OnOk result (take (length scope.old) scope.new ≡ scope.old) }
{
    match stmt {
        Stmt::Let {
            mutable,
            name,
            value,
        } => let_of(around, *mutable, name, value, scope),
        Stmt::Set { name, value } => set_to(around, name, value, scope),
        Stmt::Send { port, value } => send_to(around, ports, port, value, scope),
        Stmt::If { arms, other } => {
            let height = walk_arms(around, ports, arms.as_slice(), scope)?;
            match other {
                None => Ok(above(height)),
                Some(body) => {
                    let last = inner(around, ports, body.as_slice(), height, scope)?;
                    Ok(above(last))
                }
            }
        }
        Stmt::For { name, list, body } => {
            for_walk(around, ports, name, body.as_slice(), list, scope)
        }
    }
}

/// The height of `for`, which runs over a list.
#[cycle(walking)]
fn for_walk<'m>(
    around: &Around<'m>,
    ports: &Names<PortEntry<'_>>,
    name: &'m Id,
    body: &'m [Stmt],
    list: &'m Expr,
    scope: &mut Names<Local<'m>>,
) -> Result<u32, CheckError>
    ensures walks { Walks (for_walk around.now name.now (judge around.now list.now) (map (walk around.now ports.now) body.now) scope.old) result scope.new }
    ensures keeps { OnOk result (scope.new ≡ scope.old) }
{
    around.fresh(name, scope)?;
    let items = judge(around, list, scope)?;
    for_items(around, ports, name, &items, body, scope)
}

/// The height of `for` over these items, which are a list. Its name is seen in its braces.
#[cycle(walking)]
fn for_items<'m>(
    around: &Around<'m>,
    ports: &Names<PortEntry<'_>>,
    name: &'m Id,
    items: &Seen,
    body: &'m [Stmt],
    scope: &mut Names<Local<'m>>,
) -> Result<u32, CheckError>
    requires { is_among binding_name scope.old name.now.name ≡ false }
    ensures walks { Walks (for_items name.now (map (walk around.now ports.now) body.now) items.now scope.old) result scope.new }
    ensures keeps { OnOk result (scope.new ≡ scope.old) }
{
    let item = item_type(around.alloc(), items)?;
    let depth = scope.len();
    bind(scope, name, item, BindingKind::Fixed)?;
    let height = inner(around, ports, body, items.height, scope)?;
    close(scope, depth);
    Ok(above(height))
}

/// The height of statements, on what came before them of this height.
#[cycle(walking)]
pub(crate) fn stmts<'m>(
    around: &Around<'m>,
    ports: &Names<PortEntry<'_>>,
    stmts: &'m [Stmt],
    before: u32,
    scope: &mut Names<Local<'m>>,
) -> Result<u32, CheckError>
    ensures walks { Walks (walk_all (map (walk around.now ports.now) stmts.now) before scope.old) result scope.new }
    ensures grows { OnOk result (take (length scope.old) scope.new ≡ scope.old) }
{
    let mut height = before;
    for each in stmts {
        height = height.max(stmt(around, ports, each, scope)?);
    }
    Ok(height)
}

/// The height of statements in braces, whose names are seen in them alone.
#[cycle(walking)]
pub(crate) fn inner<'m>(
    around: &Around<'m>,
    ports: &Names<PortEntry<'_>>,
    body: &'m [Stmt],
    before: u32,
    scope: &mut Names<Local<'m>>,
) -> Result<u32, CheckError>
    ensures says { Says (inner (map (walk around.now ports.now) body.now) before scope.old) result }
    ensures keeps { OnOk result (scope.new ≡ scope.old) }
{
    let depth = scope.len();
    let height = stmts(around, ports, body, before, scope)?;
    close(scope, depth);
    Ok(height)
}

/// The height of `if` and its arms.
#[cycle(walking)]
fn walk_arms<'m>(
    around: &Around<'m>,
    ports: &Names<PortEntry<'_>>,
    arms: &'m [StmtArm],
    scope: &mut Names<Local<'m>>,
) -> Result<u32, CheckError>
    ensures says { Says (arms_walk (map (walk_arm around.now ports.now) arms.now) 0 scope.old) result }
    ensures keeps { OnOk result (scope.new ≡ scope.old) }
{
    let mut height = 0u32;
    for arm in arms {
        height = walk_arm(around, ports, arm, height, scope)?;
    }
    Ok(height)
}

/// The height of one arm.
#[cycle(walking)]
fn walk_arm<'m>(
    around: &Around<'m>,
    ports: &Names<PortEntry<'_>>,
    arm: &'m StmtArm,
    before: u32,
    scope: &mut Names<Local<'m>>,
) -> Result<u32, CheckError>
    ensures says { Says (walk_arm around.now ports.now arm.now before scope.old) result }
    ensures keeps { OnOk result (scope.new ≡ scope.old) }
{
    arm_of(around, ports, arm.body.as_slice(), &arm.cond, before, scope)
}

/// The height of a condition, which is bool, and of what stands in its braces.
#[cycle(walking)]
fn arm_of<'m>(
    around: &Around<'m>,
    ports: &Names<PortEntry<'_>>,
    body: &'m [Stmt],
    cond: &'m Expr,
    before: u32,
    scope: &mut Names<Local<'m>>,
) -> Result<u32, CheckError>
    ensures says { Says (arm_of (judge around.now cond.now) (map (walk around.now ports.now) body.now) before scope.old) result }
    ensures keeps { OnOk result (scope.new ≡ scope.old) }
{
    let tested = test(around, cond, before, scope)?;
    inner(around, ports, body, tested, scope)
}

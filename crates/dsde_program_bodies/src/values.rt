//! Expressions of statements, and what stands before the braces of `for`.

ghost use Rattle.std.specs.Prelude.{◌≡◌, length, take, IfOk, OnOk};
ghost use Rattle.dsde_language.specs.declared.act.Act.TheVariants as act;
ghost use Rattle.dsde_language.specs.Expressions.{expr_id};
ghost use Rattle.dsde_language.specs.Names.{slot_of, with_slot};
ghost use Rattle.dsde_language.specs.Typing.{item_in};
ghost use Rattle.dsde_program_expressions.specs.given.program_layout.Lay.{lay};

use dsde_language::given::names::Names;
use dsde_language::{Act, ExprId, Tables};
use dsde_program_expressions::given::check_tables::Member;
use dsde_program_expressions::given::program_slots::{bind, item_in, slot_of};
use dsde_program_expressions::{Laid, Resolver};
use dsde_syntax::given::lists::Memory;
use dsde_syntax::{Expr, Id};

/// Lays an expression whose type is of no account, and gives its number.
pub(crate) fn number_of<'m>(
    resolver: &Resolver<'m>,
    value: &'m Expr,
    scope: &mut Names<Member<'m>>,
    tables: &mut Tables,
) -> Result<ExprId, Memory>
    ensures number { IfOk result (λ number. number ≡ expr_id (length tables.old.nodes)) }
    ensures tables { OnOk result (tables.new ≡ record tables.old { nodes = (lay resolver.now value.now scope.old tables.old.nodes).table }) }
    ensures scope { OnOk result (scope.new ≡ scope.old) }
{
    let laid = resolver.expr(value, scope, &mut tables.nodes)?;
    Ok(laid.number)
}

/// `let` and `var`: the name is seen behind its value.
pub(crate) fn let_of<'m>(
    resolver: &Resolver<'m>,
    name: &'m Id,
    value: &'m Expr,
    scope: &mut Names<Member<'m>>,
    tables: &mut Tables,
) -> Result<Act, Memory>
    ensures own { IfOk result (λ own. own ≡ act.Let (expr_id (length tables.old.nodes))) }
    ensures tables { OnOk result (tables.new ≡ record tables.old { nodes = (lay resolver.now value.now scope.old tables.old.nodes).table }) }
    ensures scope { OnOk result (scope.new ≡ with_slot scope.old name.now.name (lay resolver.now value.now scope.old tables.old.nodes).ty) }
    ensures kept { OnOk result (take (length scope.old) scope.new ≡ scope.old) }
{
    let Laid { number, ty } = resolver.expr(value, scope, &mut tables.nodes)?;
    bind(scope, name.name.as_slice(), ty)?;
    Ok(Act::Let(number))
}

/// An assignment to a name that is seen.
pub(crate) fn set_of<'m>(
    resolver: &Resolver<'m>,
    name: &Id,
    value: &'m Expr,
    scope: &mut Names<Member<'m>>,
    tables: &mut Tables,
) -> Result<Act, Memory>
    ensures own { IfOk result (λ own. own ≡ act.Set (slot_of scope.old name.now.name) (expr_id (length tables.old.nodes))) }
    ensures tables { OnOk result (tables.new ≡ record tables.old { nodes = (lay resolver.now value.now scope.old tables.old.nodes).table }) }
    ensures scope { OnOk result (scope.new ≡ scope.old) }
{
    let number = number_of(resolver, value, scope, tables)?;
    let slot = slot_of(scope, name.name.as_slice())?;
    Ok(Act::Set(slot, number))
}

/// A value that is sent through one of these out ports.
pub(crate) fn send_of<'m>(
    resolver: &Resolver<'m>,
    outs: &Names<Member<'_>>,
    port: &Id,
    value: &'m Expr,
    scope: &mut Names<Member<'m>>,
    tables: &mut Tables,
) -> Result<Act, Memory>
    ensures own { IfOk result (λ own. own ≡ act.Send (slot_of outs.now port.now.name) (expr_id (length tables.old.nodes))) }
    ensures tables { OnOk result (tables.new ≡ record tables.old { nodes = (lay resolver.now value.now scope.old tables.old.nodes).table }) }
    ensures scope { OnOk result (scope.new ≡ scope.old) }
{
    let number = number_of(resolver, value, scope, tables)?;
    let slot = slot_of(outs, port.name.as_slice())?;
    Ok(Act::Send(slot, number))
}

/// What stands before the braces of `for`: a list, whose items have a name that is seen behind it.
pub(crate) fn items_of<'m>(
    resolver: &Resolver<'m>,
    name: &'m Id,
    list: &'m Expr,
    scope: &mut Names<Member<'m>>,
    tables: &mut Tables,
) -> Result<ExprId, Memory>
    ensures number { IfOk result (λ number. number ≡ expr_id (length tables.old.nodes)) }
    ensures tables { OnOk result (tables.new ≡ record tables.old { nodes = (lay resolver.now list.now scope.old tables.old.nodes).table }) }
    ensures scope { OnOk result (scope.new ≡ with_slot scope.old name.now.name (item_in (lay resolver.now list.now scope.old tables.old.nodes).ty)) }
    ensures kept { OnOk result (take (length scope.old) scope.new ≡ scope.old) }
{
    let Laid { number, ty } = resolver.expr(list, scope, &mut tables.nodes)?;
    bind(scope, name.name.as_slice(), item_in(ty))?;
    Ok(number)
}

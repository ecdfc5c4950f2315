//! Statements without braces: names that are bound and assigned to, and values that are sent.

ghost use Rattle.std.specs.Prelude.{◌≡◌, not, length, take, OnOk};
ghost use Rattle.dsde_language.specs.Steps.{unless};
ghost use Rattle.dsde_language.specs.Judge.{judge};
ghost use Rattle.dsde_language.specs.Blocks.{let_of, may_set, send_of, send_to, set_to, var_kind};
ghost use Rattle.dsde_language.specs.declared.wrong.WrongKind.TheVariants.{WrongType};
ghost use Rattle.dsde_check_expressions.specs.given.check_scope.Says.{Says, Walks};
ghost use Rattle.dsde_check_bodies.specs.Parts.{taken};

use dsde_check_expressions::given::check_scope::{
    Around, CheckError, above, bind, copy_type, wanted,
};
use dsde_check_expressions::given::check_tables::{Local, PortEntry};
use dsde_check_expressions::judge;
use dsde_language::{BindingKind, WrongKind};
use dsde_names::Names;
use dsde_syntax::{Expr, Id};
use dsde_values::Ty;

/// What `let` or `var` makes of a name.
fn var_kind(mutable: bool) -> BindingKind
    ensures { result ≡ var_kind mutable }
{
    if mutable {
        BindingKind::Var
    } else {
        BindingKind::Fixed
    }
}

/// `let` and `var`: the name is bound behind its value.
pub(crate) fn let_of<'m>(
    around: &Around<'m>,
    mutable: bool,
    name: &'m Id,
    value: &'m Expr,
    scope: &mut Names<Local<'m>>,
) -> Result<u32, CheckError>
    ensures walks { Walks (let_of around.now mutable name.now (judge around.now value.now) scope.old) result scope.new }
    ensures grows { OnOk result (take (length scope.old) scope.new ≡ scope.old) }
{
    around.fresh(name, scope)?;
    let seen = judge(around, value, scope)?;
    let height = above(seen.height);
    bind(scope, name, seen.ty, var_kind(mutable))?;
    Ok(height)
}

/// The name may be assigned to: `WrongType` at it.
fn may_set(around: &Around<'_>, name: &Id, kind: BindingKind) -> Result<(), CheckError>
    ensures { Says (unless (not (may_set around.now kind)) WrongType name.now.at) result }
{
    let may = match kind {
        BindingKind::Fixed => false,
        BindingKind::Var => true,
        BindingKind::State => around.sets_states(),
    };
    if !may {
        return Err(CheckError::Wrong(WrongKind::WrongType, name.at));
    }
    Ok(())
}

/// An assignment, to a name that may be assigned to, of a value of its type.
pub(crate) fn set_to<'m>(
    around: &Around<'m>,
    name: &Id,
    value: &'m Expr,
    scope: &mut Names<Local<'m>>,
) -> Result<u32, CheckError>
    ensures walks { Walks (set_to around.now name.now (judge around.now value.now) scope.old) result scope.new }
    ensures keeps { OnOk result (scope.new ≡ scope.old) }
{
    let Some(bound) = scope.get(name.name.as_slice()) else {
        return Err(CheckError::Wrong(WrongKind::Unknown, name.at));
    };
    may_set(around, name, bound.kind())?;
    let ty = copy_type(around.alloc(), bound.ty())?;
    taken(around, &ty, value, scope)
}

/// A value of this type, which a statement takes.
fn taken<'m>(
    around: &Around<'m>,
    ty: &Ty,
    value: &'m Expr,
    scope: &mut Names<Local<'m>>,
) -> Result<u32, CheckError>
    ensures walks { Walks (taken ty.now (judge around.now value.now) scope.old) result scope.new }
    ensures keeps { OnOk result (scope.new ≡ scope.old) }
{
    let seen = judge(around, value, scope)?;
    wanted(ty, &seen)?;
    Ok(above(seen.height))
}

/// A value that is sent, to an out port and of its type.
pub(crate) fn send_to<'m>(
    around: &Around<'m>,
    ports: &Names<PortEntry<'_>>,
    name: &Id,
    value: &'m Expr,
    scope: &mut Names<Local<'m>>,
) -> Result<u32, CheckError>
    ensures walks { Walks (send_to ports.now name.now (judge around.now value.now) scope.old) result scope.new }
    ensures keeps { OnOk result (scope.new ≡ scope.old) }
{
    match ports.get(name.name.as_slice()) {
        Some(port) => send_of(around, port, name, value, scope),
        None => Err(CheckError::Wrong(WrongKind::Unknown, name.at)),
    }
}

/// A value that is sent through this port, whose name stands here.
fn send_of<'m>(
    around: &Around<'m>,
    port: &PortEntry<'_>,
    name: &Id,
    value: &'m Expr,
    scope: &mut Names<Local<'m>>,
) -> Result<u32, CheckError>
    ensures walks { Walks (send_of name.now port.now (judge around.now value.now) scope.old) result scope.new }
    ensures keeps { OnOk result (scope.new ≡ scope.old) }
{
    if !port.is_out() {
        return Err(CheckError::Wrong(WrongKind::Unknown, name.at));
    }
    taken(around, port.ty(), value, scope)
}

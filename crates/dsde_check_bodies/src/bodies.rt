//! Bodies of atomic models and of executives.

ghost use Rattle.std.specs.Prelude.{◌≡◌, false, not, map, OnOk};
ghost use Rattle.std.specs.List.{list_any};
ghost use Rattle.dsde_names.specs.Table.{is_among};
ghost use Rattle.dsde_syntax.specs.declared.decl.PortDecl.{PortDecl};
ghost use Rattle.dsde_language.specs.RuleTables.{binding_name, port_name};
ghost use Rattle.dsde_language.specs.Blocks.{advance_of, body_of, external_of, new_state, state_of, walk_all};
ghost use Rattle.dsde_check_expressions.specs.given.check_scope.Says.{Says, Walks};

use crate::headers::own_type;
use crate::phases::phases;
use dsde_check_expressions::given::check_scope::{Around, CheckError, bind, unbound, wanted};
use dsde_check_expressions::given::check_tables::{Local, PortEntry};
use dsde_check_expressions::judge;
use dsde_language::{BindingKind, WrongKind};
use dsde_names::Names;
use dsde_syntax::{Body, Boxed, Expr, Id, PortDecl, StateDecl};
use dsde_values::Ty;

/// The height of the highest part of a body at this place, with these ports and over the parameters
/// that are in scope. The scope gains its state variables.
pub fn body<'m>(
    around: &Around<'m>,
    at: u32,
    ports: &Names<PortEntry<'m>>,
    body: &'m Body,
    scope: &mut Names<Local<'m>>,
) -> Result<u32, CheckError>
    ensures { Walks (body_of around.now at ports.now body.now scope.old) result scope.new }
{
    let states = states(around, ports, body.states.as_slice(), scope)?;
    let advance = advance(around, &body.advance, scope)?;
    let phases = phases(around, ports, body, scope)?;
    external(at, body)?;
    Ok(states.max(advance.max(phases)))
}

/// The height of state variables, each over those before it.
fn states<'m>(
    around: &Around<'m>,
    ports: &Names<PortEntry<'_>>,
    states: &'m [StateDecl],
    scope: &mut Names<Local<'m>>,
) -> Result<u32, CheckError>
    ensures { Walks (walk_all (map (state_of around.now ports.now) states.now) 0 scope.old) result scope.new }
{
    let mut height = 0u32;
    for own in states {
        height = height.max(state(around, ports, own, scope)?);
    }
    Ok(height)
}

/// The height of a state variable, whose value has its type.
fn state<'m>(
    around: &Around<'m>,
    ports: &Names<PortEntry<'_>>,
    state: &'m StateDecl,
    scope: &mut Names<Local<'m>>,
) -> Result<u32, CheckError>
    ensures { Walks (state_of around.now ports.now state.now scope.old) result scope.new }
{
    new_state(ports, scope, &state.name)?;
    let own = own_type(around, &state.ty)?;
    let seen = judge(around, &state.value, scope)?;
    wanted(&own.ty, &seen)?;
    bind(scope, &state.name, own.ty, BindingKind::State)?;
    Ok(seen.height)
}

/// A state variable has a name that no port and nothing in scope has, else `Duplicate` at it.
fn new_state(
    ports: &Names<PortEntry<'_>>,
    scope: &Names<Local<'_>>,
    name: &Id,
) -> Result<(), CheckError>
    ensures says { Says (new_state ports.now scope.now name.now) result }
    ensures apart { OnOk result (is_among port_name ports.now name.now.name ≡ false) }
    ensures free { OnOk result (is_among binding_name scope.now name.now.name ≡ false) }
{
    if ports.has(name.name.as_slice()) {
        return Err(CheckError::Wrong(WrongKind::Duplicate, name.at));
    }
    unbound(scope, name)
}

/// The height of advance, which has the type `opt<int>`.
fn advance<'m>(
    around: &Around<'m>,
    advance: &'m Expr,
    scope: &mut Names<Local<'m>>,
) -> Result<u32, CheckError>
    ensures says { Says (advance_of around.now advance.now scope.old) result }
    ensures keeps { OnOk result (scope.new ≡ scope.old) }
{
    let ty = Ty::Opt(Boxed::new(around.alloc(), Ty::Int)?);
    let seen = judge(around, advance, scope)?;
    wanted(&ty, &seen)?;
    Ok(seen.height)
}

/// A body with an in port has an external block, else `NoExternal` at its place.
fn external(at: u32, body: &Body) -> Result<(), CheckError>
    ensures { Says (external_of at body.now) result }
{
    if has_input(body.ports.as_slice()) && body.external.is_none() {
        return Err(CheckError::Wrong(WrongKind::NoExternal, at));
    }
    Ok(())
}

/// Whether a port is an in port.
fn has_input(ports: &[PortDecl]) -> bool
    ensures { result ≡ list_any (λ (port : PortDecl). not port.out) ports.now }
{
    ports.iter().any(|port| !port.out)
}

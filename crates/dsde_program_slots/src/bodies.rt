//! The names that the parts of functions and bodies see.

ghost use Rattle.std.specs.Prelude.{◌≡◌, [], ◌∷◌, length, take, false, IfOk, OnOk};
ghost use Rattle.dsde_language.specs.Names.{with_slots};
ghost use Rattle.dsde_language.specs.DeclaredModels.{typed_fields, state_fields, port_fields};
ghost use Rattle.dsde_language.specs.Statements.{list_fields, input_fields};

use crate::scope::bind;
use dsde_check_tables::{Known, Member, list_type};
use dsde_language::given::names::Names;
use dsde_syntax::given::lists::Memory;
use dsde_syntax::{PortDecl, StateDecl, Typed};
use dsde_values::Ty;
use std::alloc::Global;

/// Parameters, which a function sees and the first values of state variables.
pub fn params_scope<'m>(
    alloc: Global,
    known: &Known<'_>,
    params: &'m [Typed],
) -> Result<Names<Member<'m>>, Memory>
    ensures { IfOk result (λ scope. scope ≡ with_slots [] (typed_fields known.now params.now)) }
{
    let mut scope = Names::new(alloc);
    see_params(alloc, known, params, &mut scope)?;
    Ok(scope)
}

/// Adds parameters.
fn see_params<'m>(
    alloc: Global,
    known: &Known<'_>,
    params: &'m [Typed],
    scope: &mut Names<Member<'m>>,
) -> Result<(), Memory>
    ensures { OnOk result (scope.new ≡ with_slots scope.old (typed_fields known.now params.now)) }
{
    for param in params {
        let ty = known.by_text(alloc, &param.ty)?;
        bind(scope, param.name.name.as_slice(), ty)?;
    }
    Ok(())
}

/// Parameters and behind them state variables, which a structure sees and all that follows the state
/// variables of a body.
pub fn body_scope<'m>(
    alloc: Global,
    known: &Known<'_>,
    params: &'m [Typed],
    states: &'m [StateDecl],
) -> Result<Names<Member<'m>>, Memory>
    ensures { IfOk result (λ scope. scope ≡ with_slots (with_slots [] (typed_fields known.now params.now)) (state_fields known.now states.now)) }
{
    let mut scope = params_scope(alloc, known, params)?;
    see_states(alloc, known, states, &mut scope)?;
    Ok(scope)
}

/// Adds state variables.
fn see_states<'m>(
    alloc: Global,
    known: &Known<'_>,
    states: &'m [StateDecl],
    scope: &mut Names<Member<'m>>,
) -> Result<(), Memory>
    ensures { OnOk result (scope.new ≡ with_slots scope.old (state_fields known.now states.now)) }
{
    for state in states {
        let ty = known.by_text(alloc, &state.ty)?;
        bind(scope, state.name.name.as_slice(), ty)?;
    }
    Ok(())
}

/// The ports of one direction.
pub fn ports_scope<'m>(
    alloc: Global,
    known: &Known<'_>,
    out: bool,
    ports: &'m [PortDecl],
) -> Result<Names<Member<'m>>, Memory>
    ensures { IfOk result (λ scope. scope ≡ with_slots [] (port_fields known.now out ports.now)) }
{
    let mut scope = Names::new(alloc);
    for port in ports {
        see_port(alloc, known, out, port, &mut scope)?;
    }
    Ok(scope)
}

/// Adds a port, if it is of this direction.
fn see_port<'m>(
    alloc: Global,
    known: &Known<'_>,
    out: bool,
    port: &'m PortDecl,
    scope: &mut Names<Member<'m>>,
) -> Result<(), Memory>
    ensures { OnOk result (scope.new ≡ with_slots scope.old (port_fields known.now out (port.now ∷ []))) }
{
    if port.out != out {
        return Ok(());
    }
    let ty = known.by_text(alloc, &port.ty)?;
    bind(scope, port.name.name.as_slice(), ty)
}

/// Adds what external and confluent see: each in port with the list of its values, and `elapsed`.
pub fn see_inputs<'m>(
    alloc: Global,
    known: &Known<'_>,
    ports: &'m [PortDecl],
    scope: &mut Names<Member<'m>>,
) -> Result<(), Memory>
    ensures ok { OnOk result (scope.new ≡ with_slots scope.old (input_fields (port_fields known.now false ports.now))) }
    ensures front { OnOk result (take (length scope.old) scope.new ≡ scope.old) }
{
    for port in ports {
        see_input(alloc, known, port, scope)?;
    }
    bind(scope, b"elapsed", Ty::Int)
}

/// Adds a port with the list of its values, if it is an in port.
fn see_input<'m>(
    alloc: Global,
    known: &Known<'_>,
    port: &'m PortDecl,
    scope: &mut Names<Member<'m>>,
) -> Result<(), Memory>
    ensures ok { OnOk result (scope.new ≡ with_slots scope.old (list_fields (port_fields known.now false (port.now ∷ [])))) }
    ensures front { OnOk result (take (length scope.old) scope.new ≡ scope.old) }
{
    if port.out {
        return Ok(());
    }
    let ty = known.by_text(alloc, &port.ty)?;
    bind(scope, port.name.name.as_slice(), list_type(alloc, ty)?)
}

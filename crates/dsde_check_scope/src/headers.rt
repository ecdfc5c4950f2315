//! What stands at the head of a declaration: fields, parameters and ports, and the names of a body.

ghost use Rattle.std.specs.Prelude.{◌≡◌, [], false, IfOk, OnOk};
ghost use Rattle.dsde_names.specs.Table.{is_among};
ghost use Rattle.dsde_language.specs.RuleTables.{field_name, port_name};
ghost use Rattle.dsde_language.specs.Blocks.{new_field, fields_all, params_all, ports_all, new_port, with_params, with_ports, with_states, body_names};
ghost use Rattle.dsde_check_scope.specs.Says.{Says, Leaves};

use crate::CheckError;
use crate::names::{bind, unbound};
use crate::written::type_of;
use dsde_check_tables::{Known, Local, Member, PortEntry, Word, add_name};
use dsde_language::{BindingKind, WrongKind};
use dsde_lists::Memory;
use dsde_names::Names;
use dsde_syntax::{Body, Id, PortDecl, StateDecl, Typed};
use std::alloc::Global;

/// The fields of a record: each differs from those before it, else `Duplicate` at it, and each type
/// is one that is declared before.
pub fn fields_all<'m>(
    alloc: Global,
    known: &Known<'_>,
    fields: &'m [Typed],
) -> Result<Names<Member<'m>>, CheckError>
    ensures { Says (fields_all known.now [] fields.now) result }
{
    let mut found = Names::new(alloc);
    add_fields(alloc, known, &mut found, fields)?;
    Ok(found)
}

/// Adds fields in their order.
fn add_fields<'m>(
    alloc: Global,
    known: &Known<'_>,
    found: &mut Names<Member<'m>>,
    fields: &'m [Typed],
) -> Result<(), CheckError>
    ensures { Leaves (fields_all known.now found.old fields.now) result found.new }
{
    for typed in fields {
        new_field(found, &typed.name)?;
        let seen = type_of(alloc, known, &typed.ty)?;
        found.push(Member::new(typed.name.name.as_slice(), seen.ty))?;
    }
    Ok(())
}

fn new_field(found: &Names<Member<'_>>, name: &Id) -> Result<(), CheckError>
    ensures says { Says (new_field found.now name.now) result }
    ensures free { OnOk result (is_among field_name found.now name.now.name ≡ false) }
{
    if found.has(name.name.as_slice()) {
        return Err(CheckError::Wrong(WrongKind::Duplicate, name.at));
    }
    Ok(())
}

/// Parameters, as names that are seen.
pub fn params_all<'m>(
    alloc: Global,
    known: &Known<'_>,
    params: &'m [Typed],
) -> Result<Names<Local<'m>>, CheckError>
    ensures { Says (params_all known.now [] params.now) result }
{
    let mut scope = Names::new(alloc);
    add_params(alloc, known, &mut scope, params)?;
    Ok(scope)
}

/// Adds parameters in their order.
fn add_params<'m>(
    alloc: Global,
    known: &Known<'_>,
    scope: &mut Names<Local<'m>>,
    params: &'m [Typed],
) -> Result<(), CheckError>
    ensures { Leaves (params_all known.now scope.old params.now) result scope.new }
{
    for typed in params {
        unbound(scope, &typed.name)?;
        let seen = type_of(alloc, known, &typed.ty)?;
        bind(scope, &typed.name, seen.ty, BindingKind::Fixed)?;
    }
    Ok(())
}

/// Ports: each has a name that no parameter and no port before it has, else `Duplicate` at it.
pub fn ports_all<'m>(
    alloc: Global,
    known: &Known<'_>,
    params: &Names<Local<'_>>,
    ports: &'m [PortDecl],
) -> Result<Names<PortEntry<'m>>, CheckError>
    ensures { Says (ports_all known.now params.now [] ports.now) result }
{
    let mut found = Names::new(alloc);
    add_ports(alloc, known, params, &mut found, ports)?;
    Ok(found)
}

/// Adds ports in their order.
fn add_ports<'m>(
    alloc: Global,
    known: &Known<'_>,
    params: &Names<Local<'_>>,
    found: &mut Names<PortEntry<'m>>,
    ports: &'m [PortDecl],
) -> Result<(), CheckError>
    ensures { Leaves (ports_all known.now params.now found.old ports.now) result found.new }
{
    for port in ports {
        new_port(params, found, &port.name)?;
        let seen = type_of(alloc, known, &port.ty)?;
        found.push(PortEntry::new(port.out, port.name.name.as_slice(), seen.ty))?;
    }
    Ok(())
}

fn new_port(
    params: &Names<Local<'_>>,
    found: &Names<PortEntry<'_>>,
    name: &Id,
) -> Result<(), CheckError>
    ensures says { Says (new_port params.now found.now name.now) result }
    ensures free { OnOk result (is_among port_name found.now name.now.name ≡ false) }
{
    unbound(params, name)?;
    if found.has(name.name.as_slice()) {
        return Err(CheckError::Wrong(WrongKind::Duplicate, name.at));
    }
    Ok(())
}

/// The names of a body, which no bound name may have: parameters, ports and state variables.
pub fn body_names<'m>(
    alloc: Global,
    params: &'m [Typed],
    body: &'m Body,
) -> Result<Names<Word<'m>>, Memory>
    ensures { IfOk result (λ names. names ≡ body_names params.now body.now) }
{
    let mut names = Names::new(alloc);
    add_names(&mut names, params, body)?;
    Ok(names)
}

/// Adds the names of a body.
fn add_names<'m>(
    names: &mut Names<Word<'m>>,
    params: &'m [Typed],
    body: &'m Body,
) -> Result<(), Memory>
    ensures { OnOk result (names.new ≡ with_states (with_ports (with_params names.old params.now) body.now.ports) body.now.states) }
{
    with_params(names, params)?;
    with_ports(names, body.ports.as_slice())?;
    with_states(names, body.states.as_slice())
}

fn with_params<'m>(names: &mut Names<Word<'m>>, params: &'m [Typed]) -> Result<(), Memory>
    ensures { OnOk result (names.new ≡ with_params names.old params.now) }
{
    for param in params {
        add_name(names, param.name.name.as_slice())?;
    }
    Ok(())
}

fn with_ports<'m>(names: &mut Names<Word<'m>>, ports: &'m [PortDecl]) -> Result<(), Memory>
    ensures { OnOk result (names.new ≡ with_ports names.old ports.now) }
{
    for port in ports {
        add_name(names, port.name.name.as_slice())?;
    }
    Ok(())
}

fn with_states<'m>(names: &mut Names<Word<'m>>, states: &'m [StateDecl]) -> Result<(), Memory>
    ensures { OnOk result (names.new ≡ with_states names.old states.now) }
{
    for state in states {
        add_name(names, state.name.name.as_slice())?;
    }
    Ok(())
}

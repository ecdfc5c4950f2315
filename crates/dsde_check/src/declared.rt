//! A declaration, over what is known before it.

ghost use Rattle.std.specs.Prelude.{◌≡◌, [], length, slice_get, unwrap_or};
ghost use Rattle.dsde_language.specs.Rules.{around_with, decl_rule, record_rule, atomic_rule, inside_rule, network_rule, top_rule};
ghost use Rattle.dsde_language.specs.Blocks.{body_names, ports_all};
ghost use Rattle.dsde_check_bodies.specs.given.check_scope.Says.{Says, Leaves};
ghost use Rattle.dsde_check.specs.Parts.{atomic_over, executed_rule, network_over, ported_rule};

use crate::CheckError;
use crate::own::distinct;
use dsde_check_bodies::given::check_scope::{
    Around, body_names, fields_all, params_all, ports_all, within,
};
use dsde_check_bodies::given::check_tables::{Known, Local, PortEntry, Word};
use dsde_check_bodies::{body as body_rule, func};
use dsde_check_structures::{args as args_rule, structure};
use dsde_language::WrongKind;
use dsde_names::Names;
use dsde_syntax::{Body, Decl, Expr, Id, Item, PortDecl, Typed};
use std::alloc::Global;

/// A declaration, over what is known before it, which becomes what is known behind it.
pub(crate) fn decl_rule<'m>(
    alloc: Global,
    known: &mut Known<'m>,
    decl: &'m Decl,
) -> Result<(), CheckError>
    ensures { Leaves (decl_rule known.old decl.now) result known.new }
{
    match decl {
        Decl::Enum { name, variants } => {
            distinct(alloc, variants.as_slice())?;
            known.behind_type(name)?;
        }
        Decl::Rec { name, fields } => {
            record_rule(alloc, known, name, fields.as_slice())?;
            known.behind_type(name)?;
        }
        Decl::Func {
            name,
            params,
            result: gives,
            stmts,
            value,
        } => {
            let callee = func(
                alloc,
                known,
                name,
                params.as_slice(),
                gives,
                stmts.as_slice(),
                value,
            )?;
            known.behind_func(callee)?;
        }
        Decl::Atomic {
            at,
            name,
            params,
            body,
        } => atomic(alloc, known, *at, name, params.as_slice(), body)?,
        Decl::Network {
            at: _,
            name,
            params,
            ports,
            exec_at,
            body,
            items,
        } => network(
            alloc,
            known,
            name,
            params.as_slice(),
            ports.as_slice(),
            *exec_at,
            body,
            items.as_slice(),
        )?,
        Decl::Top { at, name, args } => top(alloc, known, *at, name, args.as_slice())?,
    }
    Ok(())
}

/// A record's fields differ and have types that are declared before, and it is no deeper than 64.
fn record_rule(
    alloc: Global,
    known: &Known<'_>,
    name: &Id,
    fields: &[Typed],
) -> Result<(), CheckError>
    ensures { Says (record_rule known.now name.now fields.now) result }
{
    fields_all(alloc, known, fields)?;
    if own_depth(known) > 64 {
        return Err(CheckError::Wrong(WrongKind::Limit, name.at));
    }
    Ok(())
}

/// The depth of the type that is declared next.
fn own_depth(known: &Known<'_>) -> u32
    ensures { result ≡ unwrap_or (slice_get known.now.depths (length known.now.before)) 0 }
{
    match known.depths().get(known.before().len()) {
        Some(depth) => *depth,
        None => 0,
    }
}

/// An atomic model.
fn atomic(
    alloc: Global,
    known: &Known<'_>,
    at: u32,
    name: &Id,
    params: &[Typed],
    body: &Body,
) -> Result<(), CheckError>
    ensures { Says (atomic_rule (around_with known.now (body_names params.now body.now)) at name.now params.now body.now) result }
{
    let reserved = body_names(alloc, params, body)?;
    atomic_rule(alloc, known, &reserved, at, name, params, body)
}

/// A network.
fn network(
    alloc: Global,
    known: &Known<'_>,
    name: &Id,
    params: &[Typed],
    ports: &[PortDecl],
    exec_at: u32,
    body: &Body,
    items: &[Item],
) -> Result<(), CheckError>
    ensures { Says (network_rule (around_with known.now (body_names params.now body.now)) name.now params.now ports.now exec_at body.now items.now) result }
{
    let reserved = body_names(alloc, params, body)?;
    network_rule(
        alloc, known, &reserved, name, params, ports, exec_at, body, items,
    )
}

/// The `top` of a file.
fn top(
    alloc: Global,
    known: &Known<'_>,
    at: u32,
    name: &Id,
    args: &[Expr],
) -> Result<(), CheckError>
    ensures { Says (top_rule (around_with known.now []) at name.now args.now) result }
{
    let reserved = Names::new(alloc);
    top_rule(alloc, known, &reserved, at, name, args)
}

/// An atomic model, where these names are reserved.
fn atomic_rule<'k>(
    alloc: Global,
    known: &'k Known<'k>,
    reserved: &'k Names<Word<'k>>,
    at: u32,
    name: &Id,
    params: &'k [Typed],
    body: &'k Body,
) -> Result<(), CheckError>
    ensures { Says (atomic_rule (around_with known.now reserved.now) at name.now params.now body.now) result }
{
    let around = Around::new(alloc, known, reserved);
    let mut scope = params_all(alloc, known, params)?;
    atomic_over(&around, at, name, body, &mut scope)
}

/// An atomic model over its parameters.
fn atomic_over<'k>(
    around: &Around<'k>,
    at: u32,
    name: &Id,
    body: &'k Body,
    scope: &mut Names<Local<'k>>,
) -> Result<(), CheckError>
    ensures { Says (atomic_over around.now at name.now body.now scope.old) result }
{
    let ports = own_ports(around, scope, body.ports.as_slice())?;
    ported_rule(around, at, name, &ports, body, scope)
}

/// An atomic model with these ports, over its parameters.
fn ported_rule<'k>(
    around: &Around<'k>,
    at: u32,
    name: &Id,
    ports: &Names<PortEntry<'k>>,
    body: &'k Body,
    scope: &mut Names<Local<'k>>,
) -> Result<(), CheckError>
    ensures { Says (ported_rule around.now at name.now ports.now body.now scope.old) result }
{
    let height = body_rule(around, at, ports, body, scope)?;
    within(name.at, height)
}

/// Ports, over the parameters.
fn own_ports<'k>(
    around: &Around<'k>,
    scope: &Names<Local<'k>>,
    ports: &'k [PortDecl],
) -> Result<Names<PortEntry<'k>>, CheckError>
    ensures { Says (ports_all around.now.known scope.now [] ports.now) result }
{
    ports_all(around.alloc(), around.known(), scope, ports)
}

/// A network, where these names are reserved: its ports may share names with those of its executive.
fn network_rule<'k>(
    alloc: Global,
    known: &'k Known<'k>,
    reserved: &'k Names<Word<'k>>,
    name: &Id,
    params: &'k [Typed],
    ports: &'k [PortDecl],
    exec_at: u32,
    body: &'k Body,
    items: &'k [Item],
) -> Result<(), CheckError>
    ensures { Says (network_rule (around_with known.now reserved.now) name.now params.now ports.now exec_at body.now items.now) result }
{
    let around = Around::new(alloc, known, reserved);
    let mut scope = params_all(alloc, known, params)?;
    network_over(&around, name, ports, exec_at, body, items, &mut scope)
}

/// A network over its parameters.
fn network_over<'k>(
    around: &Around<'k>,
    name: &Id,
    ports: &'k [PortDecl],
    exec_at: u32,
    body: &'k Body,
    items: &'k [Item],
    scope: &mut Names<Local<'k>>,
) -> Result<(), CheckError>
    ensures { Says (network_over around.now name.now ports.now exec_at body.now items.now scope.old) result }
{
    let own = own_ports(around, scope, ports)?;
    inside_rule(around, name, &own, exec_at, body, items, scope)
}

/// What stands in a network behind its own ports: its executive, and its structure.
fn inside_rule<'k>(
    around: &Around<'k>,
    name: &Id,
    ports: &Names<PortEntry<'k>>,
    exec_at: u32,
    body: &'k Body,
    items: &'k [Item],
    scope: &mut Names<Local<'k>>,
) -> Result<(), CheckError>
    ensures { Says (inside_rule around.now name.now ports.now exec_at body.now items.now scope.old) result }
{
    let execs = own_ports(around, scope, body.ports.as_slice())?;
    executed_rule(around, name, ports, &execs, exec_at, body, items, scope)
}

/// A network with these ports, whose executive has those.
fn executed_rule<'k>(
    around: &Around<'k>,
    name: &Id,
    ports: &Names<PortEntry<'k>>,
    execs: &Names<PortEntry<'k>>,
    exec_at: u32,
    body: &'k Body,
    items: &'k [Item],
    scope: &mut Names<Local<'k>>,
) -> Result<(), CheckError>
    ensures { Says (executed_rule around.now name.now ports.now execs.now exec_at body.now items.now scope.old) result }
{
    let height = body_rule(around, exec_at, execs, body, scope)?;
    let most = structure(around, ports, execs, items, scope)?;
    within(name.at, height.max(most))
}

/// The model of `top` is declared, and its arguments are of its parameters' types; they see no name.
fn top_rule<'k>(
    alloc: Global,
    known: &'k Known<'k>,
    reserved: &'k Names<Word<'k>>,
    at: u32,
    name: &Id,
    args: &'k [Expr],
) -> Result<(), CheckError>
    ensures { Says (top_rule (around_with known.now reserved.now) at name.now args.now) result }
{
    let around = Around::new(alloc, known, reserved);
    let mut scope = Names::new(alloc);
    let height = args_rule(&around, name, args, &mut scope)?;
    within(at, height)
}

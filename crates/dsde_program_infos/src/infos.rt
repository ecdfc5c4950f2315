//! The models that a file declares, with their parameters, ports and state variables.

ghost use Rattle.std.specs.Prelude.{◌≡◌, true, false, [], IfOk, OnOk};
ghost use Rattle.dsde_language.specs.DeclaredModels.{typed_fields, state_fields, port_fields};
ghost use Rattle.dsde_language.specs.NodeModels.{with_info, infos_from};

use crate::fields::{port_fields, state_fields, typed_fields};
use dsde_check_tables::Known;
use dsde_language::Info;
use dsde_syntax::given::lists::Memory;
use dsde_syntax::{Body, Decl, Id, PortDecl, Typed};
use dsde_values::{Field, Seq, Text};
use std::alloc::Global;

/// The models that a file declares, in text order.
pub fn infos_of(alloc: Global, known: &Known<'_>, decls: &[Decl]) -> Result<Seq<Info>, Memory>
    ensures { IfOk result (λ infos. infos ≡ infos_from known.now [] decls.now) }
{
    let mut infos = Seq::new(alloc);
    for decl in decls {
        with_info(alloc, known, &mut infos, decl)?;
    }
    Ok(infos)
}

/// Adds a model, if the declaration is one.
fn with_info(
    alloc: Global,
    known: &Known<'_>,
    infos: &mut Seq<Info>,
    decl: &Decl,
) -> Result<(), Memory>
    ensures { OnOk result (infos.new ≡ with_info known.now infos.old decl.now) }
{
    match decl {
        Decl::Atomic {
            at,
            name,
            params,
            body,
        } => infos.push(atomic(alloc, known, *at, name, params.as_slice(), body)?),
        Decl::Network {
            at,
            name,
            params,
            ports,
            body,
            ..
        } => infos.push(network(
            alloc,
            known,
            *at,
            name,
            params.as_slice(),
            ports.as_slice(),
            body,
        )?),
        _ => Ok(()),
    }
}

/// Ports, those that take values and those that give them.
#[derive(Drop)]
struct Ports {
    ins: Seq<Field>,
    outs: Seq<Field>,
}

/// The ports of both directions.
fn both(alloc: Global, known: &Known<'_>, ports: &[PortDecl]) -> Result<Ports, Memory>
    ensures ins { IfOk result (λ both. both.ins ≡ port_fields known.now false ports.now) }
    ensures outs { IfOk result (λ both. both.outs ≡ port_fields known.now true ports.now) }
{
    let ins = port_fields(alloc, known, false, ports)?;
    let outs = port_fields(alloc, known, true, ports)?;
    Ok(Ports { ins, outs })
}

/// No ports, which take no memory.
fn no_ports(alloc: Global) -> Ports
    ensures { result ≡ record { ins = []; outs = [] } }
{
    Ports {
        ins: Seq::new(alloc),
        outs: Seq::new(alloc),
    }
}

/// What an atomic model declares.
fn atomic(
    alloc: Global,
    known: &Known<'_>,
    at: u32,
    name: &Id,
    params: &[Typed],
    body: &Body,
) -> Result<Info, Memory>
    ensures { IfOk result (λ info. info ≡ record { name = name.now.name; at = at; network = false; params = typed_fields known.now params.now; ins = port_fields known.now false body.now.ports; outs = port_fields known.now true body.now.ports; boss_ins = []; boss_outs = []; states = state_fields known.now body.now.states }) }
{
    let name = Text::from_slice(alloc, name.name.as_slice())?;
    let params = typed_fields(alloc, known, params)?;
    let states = state_fields(alloc, known, body.states.as_slice())?;
    let own = both(alloc, known, body.ports.as_slice())?;
    let boss = no_ports(alloc);
    Ok(Info {
        name,
        at,
        network: false,
        params,
        ins: own.ins,
        outs: own.outs,
        boss_ins: boss.ins,
        boss_outs: boss.outs,
        states,
    })
}

/// What a network declares.
fn network(
    alloc: Global,
    known: &Known<'_>,
    at: u32,
    name: &Id,
    params: &[Typed],
    ports: &[PortDecl],
    body: &Body,
) -> Result<Info, Memory>
    ensures { IfOk result (λ info. info ≡ record { name = name.now.name; at = at; network = true; params = typed_fields known.now params.now; ins = port_fields known.now false ports.now; outs = port_fields known.now true ports.now; boss_ins = port_fields known.now false body.now.ports; boss_outs = port_fields known.now true body.now.ports; states = state_fields known.now body.now.states }) }
{
    let name = Text::from_slice(alloc, name.name.as_slice())?;
    let params = typed_fields(alloc, known, params)?;
    let states = state_fields(alloc, known, body.states.as_slice())?;
    let own = both(alloc, known, ports)?;
    let boss = both(alloc, known, body.ports.as_slice())?;
    Ok(Info {
        name,
        at,
        network: true,
        params,
        ins: own.ins,
        outs: own.outs,
        boss_ins: boss.ins,
        boss_outs: boss.outs,
        states,
    })
}

//! The ends of links.

ghost use Rattle.std.specs.Prelude.{◌≡◌, false, OnOk};
ghost use Rattle.dsde_syntax.specs.declared.item.EndPart.TheVariants as end_part;
ghost use Rattle.dsde_language.specs.RuleStructures.{end_at, end_of, kid_end, port_at, ports_at};
ghost use Rattle.dsde_check_expressions.specs.given.check_scope.Says.{Says};

use crate::components::index_of;
use crate::site::Site;
use dsde_check_expressions::given::check_scope::{Around, CheckError, copy_type};
use dsde_check_expressions::given::check_tables::{Local, PortEntry};
use dsde_language::{EndSeen, WrongKind};
use dsde_names::Names;
use dsde_syntax::{Bracket, EndPart, Id};
use std::alloc::Global;

/// An end at this port, which is an out port or an in port as it is wanted, else `BadLink` at its
/// name.
fn port_at(
    alloc: Global,
    name: &Id,
    out: bool,
    port: &PortEntry<'_>,
    height: u32,
    is_net: bool,
) -> Result<EndSeen, CheckError>
    ensures { Says (port_at name.now out port.now height is_net) result }
{
    if port.is_out() != out {
        return Err(CheckError::Wrong(WrongKind::BadLink, name.at));
    }
    let ty = copy_type(alloc, port.ty())?;
    Ok(EndSeen { ty, height, is_net })
}

/// The port of a name, else `Unknown` at it, which is an out port or an in port as it is wanted,
/// else `BadLink` at it.
fn end_at(
    alloc: Global,
    ports: &Names<PortEntry<'_>>,
    name: &Id,
    out: bool,
    height: u32,
    is_net: bool,
) -> Result<EndSeen, CheckError>
    ensures { Says (end_at ports.now name.now out height is_net) result }
{
    let Some(port) = ports.get(name.name.as_slice()) else {
        return Err(CheckError::Wrong(WrongKind::Unknown, name.at));
    };
    port_at(alloc, name, out, port, height, is_net)
}

/// The port of the model with this number.
fn model_end(
    around: &Around<'_>,
    model: u32,
    name: &Id,
    out: bool,
    height: u32,
) -> Result<EndSeen, CheckError>
    ensures { Says (end_at (ports_at around.now.known model) name.now out height false) result }
{
    let Some(entry) = around.known().models().at(model as usize) else {
        return Err(CheckError::Wrong(WrongKind::Unknown, name.at));
    };
    end_at(around.alloc(), entry.ports(), name, out, height, false)
}

/// An end at a component of the model with this number: its index, and then its port.
fn kid_end<'m>(
    site: &Site<'_, 'm>,
    is_source: bool,
    index: &'m Option<Bracket>,
    model: u32,
    port: &Id,
    scope: &mut Names<Local<'m>>,
) -> Result<EndSeen, CheckError>
    ensures says { Says (kid_end site.now is_source index.now model port.now scope.old) result }
    ensures keeps { OnOk result (scope.new ≡ scope.old) }
{
    let around = site.around();
    let height = index_of(around, index, scope)?;
    model_end(around, model, port, is_source, height)
}

/// An end at a component, whose identifier is that of a `comp`, else `Unknown` at it.
fn kid_of<'m>(
    site: &Site<'_, 'm>,
    is_source: bool,
    name: &Id,
    index: &'m Option<Bracket>,
    port: &Id,
    scope: &mut Names<Local<'m>>,
) -> Result<EndSeen, CheckError>
    ensures says { Says (end_of site.now is_source (end_part.Kid name.now index.now) port.now scope.old) result }
    ensures keeps { OnOk result (scope.new ≡ scope.old) }
{
    let Some(family) = site.families().get(name.name.as_slice()) else {
        return Err(CheckError::Wrong(WrongKind::Unknown, name.at));
    };
    kid_end(site, is_source, index, family.model(), port, scope)
}

/// An end of a link. A source is an in port of `net` or an out port of others, and a target is an
/// out port of `net` or an in port of others.
pub(crate) fn end_of<'m>(
    site: &Site<'_, 'm>,
    is_source: bool,
    part: &'m EndPart,
    port: &Id,
    scope: &mut Names<Local<'m>>,
) -> Result<EndSeen, CheckError>
    ensures says { Says (end_of site.now is_source part.now port.now scope.old) result }
    ensures keeps { OnOk result (scope.new ≡ scope.old) }
{
    let alloc = site.around().alloc();
    match part {
        EndPart::Net => end_at(alloc, site.ports(), port, !is_source, 0, true),
        EndPart::Exec => end_at(alloc, site.execs(), port, is_source, 0, false),
        EndPart::Kid { name, index } => kid_of(site, is_source, name, index, port, scope),
    }
}

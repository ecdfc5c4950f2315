//! Links, copied.

ghost use Rattle.std.specs.Prelude.{◌≡◌, IfOk};

use dsde_lists::Memory;
use dsde_routes_wiring::given::structure::{End, Link, Part, Via};
use dsde_values::{Seq, Value, copy_value};
use std::alloc::Global;

/// A part equal to this one.
fn copy_part(alloc: Global, part: &Part) -> Result<Part, Memory>
    ensures { IfOk result (λ copy. copy ≡ part.now) }
{
    match part {
        Part::Net => Ok(Part::Net),
        Part::Boss => Ok(Part::Boss),
        Part::Kid(name) => Ok(Part::Kid(name.copy(alloc)?)),
    }
}

/// An end equal to this one.
fn copy_end(alloc: Global, end: &End) -> Result<End, Memory>
    ensures { IfOk result (λ copy. copy ≡ end.now) }
{
    Ok(End {
        part: copy_part(alloc, &end.part)?,
        port: end.port,
    })
}

/// A key of a translation equal to this one.
fn copy_key(alloc: Global, key: &Option<Value>) -> Result<Option<Value>, Memory>
    ensures { IfOk result (λ copy. copy ≡ key.now) }
{
    match key {
        Some(value) => Ok(Some(copy_value(alloc, value)?)),
        None => Ok(None),
    }
}

/// A translation equal to this one, if there is one.
fn copy_via(alloc: Global, via: &Option<Via>) -> Result<Option<Via>, Memory>
    ensures { IfOk result (λ copy. copy ≡ via.now) }
{
    match via {
        Some(via) => Ok(Some(Via {
            id: via.id,
            key: copy_key(alloc, &via.key)?,
        })),
        None => Ok(None),
    }
}

/// A link equal to this one.
fn copy_link(alloc: Global, link: &Link) -> Result<Link, Memory>
    ensures { IfOk result (λ copy. copy ≡ link.now) }
{
    Ok(Link {
        from: copy_end(alloc, &link.from)?,
        to: copy_end(alloc, &link.to)?,
        via: copy_via(alloc, &link.via)?,
    })
}

/// Links equal to these.
pub(crate) fn copy_links(alloc: Global, links: &[Link]) -> Result<Seq<Link>, Memory>
    ensures { IfOk result (λ copies. copies ≡ links.now) }
{
    let mut copies = Seq::with_room(alloc, links.len())?;
    for link in links {
        copies.push(copy_link(alloc, link)?)?;
    }
    Ok(copies)
}

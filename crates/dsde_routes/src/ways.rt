//! Ways that go on over links.

ghost use Rattle.std.specs.Prelude.{◌≡◌, ◌++◌, ◌∷◌, [], map, option_to_list, IfOk, OnOk};
ghost use Rattle.dsde_routes_wiring.specs.Ways.{begin, onward};
ghost use Rattle.dsde_routes.specs.Passing.{at_port, ways_in};
ghost use Rattle.dsde_routes.specs.Ports.{numbers_at, way_at};

use dsde_bank::Handle;
use dsde_lists::Memory;
use dsde_routes_wiring::given::structure::Link;
use dsde_routes_wiring::{Chain, Passing, Rank, Way};
use dsde_values::Seq;
use std::alloc::Global;

/// A way that has no links yet.
fn bare_way(alloc: Global, source: Handle, port: u32) -> Way
    ensures { result ∷ [] ≡ begin source port }
{
    Way {
        source,
        port,
        rank: Rank::new(alloc),
        chain: Chain::new(alloc),
    }
}

/// Adds a link, and behind it the links of a way that goes on over it.
fn lead_on(alloc: Global, number: usize, link: &Link, way: &Way, on: &mut Way) -> Result<(), Memory>
    ensures { OnOk result (on.new ≡ record on.old { rank = (on.old.rank ++ number ∷ []) ++ way.now.rank; chain = (on.old.chain ++ way.now.chain) ++ option_to_list link.now.via }) }
{
    on.rank.push(number)?;
    on.rank.append(way.rank.as_slice())?;
    on.chain.append(alloc, way.chain.as_slice())?;
    on.chain.append_link(alloc, link)
}

/// A way that goes on over the link of this number.
fn go_on(alloc: Global, number: usize, link: &Link, way: &Way) -> Result<Way, Memory>
    ensures { IfOk result (λ on. on ≡ onward number link.now way.now) }
{
    let mut on = bare_way(alloc, way.source, way.port);
    lead_on(alloc, number, link, way, &mut on)?;
    Ok(on)
}

/// Adds the way that goes on from this one over a link.
fn push_on(
    alloc: Global,
    number: usize,
    link: &Link,
    way: &Way,
    ways: &mut Seq<Passing>,
) -> Result<(), Memory>
    ensures { OnOk result (ways.new ≡ ways.old ++ at_port link.now.to.port (onward number link.now way.now) ∷ []) }
{
    ways.push(Passing {
        port: link.to.port,
        way: go_on(alloc, number, link, way)?,
    })
}

/// The way that begins at a port of a source and goes over a link.
pub fn begin_over(
    alloc: Global,
    number: usize,
    link: &Link,
    source: Handle,
    ways: &mut Seq<Passing>,
) -> Result<(), Memory>
    ensures { OnOk result (ways.new ≡ ways.old ++ map (λ way. at_port link.now.to.port (onward number link.now way)) (begin source link.now.from.port)) }
{
    let first = bare_way(alloc, source, link.from.port);
    let done = push_on(alloc, number, link, &first, ways);
    drop(first);
    done
}

/// Adds the way of a number, which goes on over a link.
fn go_numbered(
    alloc: Global,
    number: usize,
    link: &Link,
    come: &[Passing],
    own: usize,
    ways: &mut Seq<Passing>,
) -> Result<(), Memory>
    ensures { OnOk result (ways.new ≡ ways.old ++ map (λ way. at_port link.now.to.port (onward number link.now way)) (way_at come.now own)) }
{
    match come.get(own) {
        None => Ok(()),
        Some(passing) => push_on(alloc, number, link, &passing.way, ways),
    }
}

/// The ways that end at the port that a link leads from, which have these numbers, go on over it.
pub fn go_over(
    alloc: Global,
    number: usize,
    link: &Link,
    come: &[Passing],
    numbers: &[usize],
    ways: &mut Seq<Passing>,
) -> Result<(), Memory>
    requires { numbers.now ≡ numbers_at link.now.from.port come.now }
    ensures { OnOk result (ways.new ≡ ways.old ++ map (λ way. at_port link.now.to.port (onward number link.now way)) (ways_in come.now link.now.from.port)) }
{
    for own in numbers {
        go_numbered(alloc, number, link, come, *own, ways)?;
    }
    Ok(())
}

//! Ways that go on over links, and rows where two ways meet.

ghost use Rattle.std.specs.Prelude.{◌≡◌, [], ◌∷◌, ◌++◌, map, option_to_list, IfOk, OnOk};
ghost use Rattle.dsde_repair_walks.specs.Walks.{extended_way, met_row, met_rows, crossed_rows, own_way};

use crate::way::Way;
use dsde_bank::Handle;
use dsde_lists::Memory;
use dsde_routes_wiring::given::structure::Link;
use dsde_routes_wiring::{Chain, Rank, Row, Side};
use dsde_values::Seq;
use std::alloc::Global;

/// Has a way go on over a link, or begin with it.
fn extend(
    alloc: Global,
    side: Side,
    number: usize,
    link: &Link,
    way: &mut Way,
) -> Result<(), Memory>
    ensures { OnOk result (way.new ≡ extended_way side number link.now way.old) }
{
    match side {
        Side::Out => lead_on(alloc, number, link, way),
        Side::Into => begin_with(alloc, number, link, way),
    }
}

fn lead_on(alloc: Global, number: usize, link: &Link, way: &mut Way) -> Result<(), Memory>
    ensures { OnOk result (way.new ≡ extended_way Side.Out number link.now way.old) }
{
    way.rank = way.rank.behind(alloc, number)?;
    way.chain.append_link(alloc, link)
}

fn begin_with(alloc: Global, number: usize, link: &Link, way: &mut Way) -> Result<(), Memory>
    ensures { OnOk result (way.new ≡ extended_way Side.Into number link.now way.old) }
{
    way.chain = behind_link(alloc, link, &way.chain)?;
    way.rank.push(number)
}

/// The translation of a link, if it has one, and those of a chain behind it.
fn behind_link(alloc: Global, link: &Link, chain: &Chain) -> Result<Chain, Memory>
    ensures { IfOk result (λ vias. vias ≡ option_to_list link.now.via ++ chain.now) }
{
    let mut vias = Chain::new(alloc);
    vias.append_link(alloc, link)?;
    vias.append(alloc, chain.as_slice())?;
    Ok(vias)
}

/// Adds the links of a way to a place and of a way on from there to a row.
fn join(alloc: Global, before: &Way, after: &Way, row: &mut Row) -> Result<(), Memory>
    ensures { OnOk result (row.new ≡ record row.old { rank = (row.old.rank ++ after.now.rank) ++ before.now.rank; chain = (row.old.chain ++ before.now.chain) ++ after.now.chain }) }
{
    row.rank.append(after.rank.as_slice())?;
    row.rank.append(before.rank.as_slice())?;
    row.chain.append(alloc, before.chain.as_slice())?;
    row.chain.append(alloc, after.chain.as_slice())
}

/// The row of a way to a place and a way on from there.
fn row(alloc: Global, before: &Way, after: &Way) -> Result<Row, Memory>
    ensures { IfOk result (λ own. own ≡ met_row before.now after.now) }
{
    let mut row = Row {
        source: before.handle,
        source_port: before.port,
        target: after.handle,
        target_port: after.port,
        rank: Rank::new(alloc),
        chain: Chain::new(alloc),
    };
    join(alloc, before, after, &mut row)?;
    Ok(row)
}

fn meet(alloc: Global, before: &Way, afters: &[Way], rows: &mut Seq<Row>) -> Result<(), Memory>
    ensures { OnOk result (rows.new ≡ rows.old ++ met_rows before.now afters.now) }
{
    for after in afters {
        rows.push(row(alloc, before, after)?)?;
    }
    Ok(())
}

/// The rows of each way to a link's source with each way on from its target.
pub fn cross(
    alloc: Global,
    number: usize,
    link: &Link,
    befores: Seq<Way>,
    afters: &[Way],
    rows: &mut Seq<Row>,
) -> Result<(), Memory>
    ensures { OnOk result (rows.new ≡ rows.old ++ crossed_rows number link.now befores afters.now) }
{
    for before in befores.into_vec() {
        cross_one(alloc, number, link, before, afters, rows)?;
    }
    Ok(())
}

/// Those of one way.
fn cross_one(
    alloc: Global,
    number: usize,
    link: &Link,
    mut before: Way,
    afters: &[Way],
    rows: &mut Seq<Row>,
) -> Result<(), Memory>
    ensures { OnOk result (rows.new ≡ rows.old ++ met_rows (extended_way Side.Out number link.now before) afters.now) }
{
    lead_on(alloc, number, link, &mut before)?;
    meet(alloc, &before, afters, rows)
}

/// The one row of a link whose source and target are these parts themselves.
pub fn direct_row(
    alloc: Global,
    number: usize,
    link: &Link,
    source: Handle,
    target: Handle,
) -> Result<Row, Memory>
    ensures { IfOk result (λ row. row ∷ [] ≡ crossed_rows number link.now (own_way source link.now.from.port ∷ []) (own_way target link.now.to.port ∷ [])) }
{
    let mut rank = Rank::new(alloc);
    rank.push(number)?;
    let mut chain = Chain::new(alloc);
    chain.append_link(alloc, link)?;
    Ok(Row {
        source,
        source_port: link.from.port,
        target,
        target_port: link.to.port,
        rank,
        chain,
    })
}

/// Adds ways that go on over a link.
pub fn extend_all(
    alloc: Global,
    side: Side,
    number: usize,
    link: &Link,
    more: Seq<Way>,
    ways: &mut Seq<Way>,
) -> Result<(), Memory>
    ensures { OnOk result (ways.new ≡ ways.old ++ map (extended_way side number link.now) more) }
{
    for mut way in more.into_vec() {
        extend(alloc, side, number, link, &mut way)?;
        ways.push(way)?;
    }
    Ok(())
}

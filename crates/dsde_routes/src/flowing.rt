//! The rows of a wiring, put into a table.

ghost use Rattle.std.specs.Prelude.{◌≡◌, ◌+◌, IfOk, OnOk};
ghost use Rattle.std.specs.FinSet as set;
ghost use Rattle.dsde_routes_wiring.specs.declared.wiring.WiredKid.TheViews.{out-Wiring};
ghost use Rattle.dsde_routes_wiring.specs.Ways.{begin};
ghost use Rattle.dsde_routes_wiring.specs.Flatten.{flatten, flow, row_of};
ghost use Rattle.dsde_routes.specs.Passing.{come_of, rows_by};
ghost use Rattle.dsde_routes.specs.Putting.{out_passing, put_all, rows_beneath, rows_to_kid, rows_to_kids};

use crate::carry::Come;
use crate::comes::{Comes, comes_in};
use crate::ports::GotWays;
use crate::sending::outs;
use dsde_bank::Handle;
use dsde_base::Steps;
use dsde_lists::Memory;
use dsde_routes_table::RouteTable;
use dsde_routes_wiring::{Passing, Row, WiredKid, Wiring};
use std::alloc::Global;
use std::sync::ledger::Ledger;

/// The row of a way that ends at a port of a target.
fn row_to(alloc: Global, target: Handle, passing: &Passing) -> Result<Row, Memory>
    ensures { IfOk result (λ row. row ≡ row_of target passing.now.port passing.now.way) }
{
    let way = &passing.way;
    Ok(Row {
        source: way.source,
        source_port: way.port,
        target,
        target_port: passing.port,
        rank: way.rank.copy(alloc)?,
        chain: way.chain.copy(alloc)?,
    })
}

/// Puts the rows of the ways to a target into a table.
fn put_rows<L: Ledger>(
    alloc: Global,
    target: Handle,
    list: &[Passing],
    table: &mut RouteTable,
    changes: &mut Steps<L>,
) -> Result<(), Memory>
    ensures rows { OnOk result (table.new ≡ put_all table.old (rows_by target list.now)) }
    ensures ticks { OnOk result (changes.new + set.len table.old ≡ changes.old + set.len table.new) }
{
    for passing in list {
        let row = row_to(alloc, target, passing)?;
        table.insert_row(row, changes)?;
    }
    Ok(())
}

/// Puts the rows of what is beneath a network into a table, where these ways come to it.
#[cycle(flowing)]
fn put_beneath<L: Ledger>(
    alloc: Global,
    net: &Wiring,
    come: Come<'_>,
    table: &mut RouteTable,
    changes: &mut Steps<L>,
) -> Result<(), Memory>
    ensures rows { OnOk result (table.new ≡ put_all table.old (rows_beneath (flow net.now) (come_of come.entry))) }
    ensures ticks { OnOk result (changes.new + set.len table.old ≡ changes.old + set.len table.new) }
{
    let comes = comes_in(alloc, net, come)?;
    put_kids(alloc, net.kids.as_slice(), &comes, table, changes)?;
    put_rows(alloc, net.boss, comes.boss.as_slice(), table, changes)
}

/// The same of the components of a network.
#[cycle(flowing)]
fn put_kids<L: Ledger>(
    alloc: Global,
    kids: &[WiredKid],
    comes: &Comes,
    table: &mut RouteTable,
    changes: &mut Steps<L>,
) -> Result<(), Memory>
    ensures rows { OnOk result (table.new ≡ put_all table.old (rows_to_kids comes.now kids.now)) }
    ensures ticks { OnOk result (changes.new + set.len table.old ≡ changes.old + set.len table.new) }
{
    for kid in kids {
        put_kid(alloc, kid, comes.to(&kid.name), table, changes)?;
    }
    Ok(())
}

/// The same of one of them.
#[cycle(flowing)]
fn put_kid<L: Ledger>(
    alloc: Global,
    kid: &WiredKid,
    got: &[Passing],
    table: &mut RouteTable,
    changes: &mut Steps<L>,
) -> Result<(), Memory>
    ensures rows { OnOk result (table.new ≡ put_all table.old (rows_to_kid kid.now got.now)) }
    ensures ticks { OnOk result (changes.new + set.len table.old ≡ changes.old + set.len table.new) }
{
    match &kid.below {
        None => put_rows(alloc, kid.handle, got, table, changes),
        Some(below) => {
            let got = GotWays::of(alloc, got)?;
            put_beneath(alloc, below.get(), Come::Ways(&got), table, changes)
        }
    }
}

/// Puts the rows of a whole wiring into a table.
fn put_whole<L: Ledger>(
    alloc: Global,
    wiring: &Wiring,
    table: &mut RouteTable,
    changes: &mut Steps<L>,
) -> Result<(), Memory>
    ensures rows { OnOk result (table.new ≡ put_all (put_all table.old (rows_beneath (flow wiring.now) (begin (out-Wiring wiring.now).me))) (rows_by (out-Wiring wiring.now).me (out_passing wiring.now))) }
    ensures ticks { OnOk result (changes.new + set.len table.old ≡ changes.old + set.len table.new) }
{
    put_beneath(alloc, wiring, Come::Root(wiring.me), table, changes)?;
    let list = outs(alloc, wiring)?;
    put_rows(alloc, wiring.me, list.as_slice(), table, changes)
}

/// The table of the rows of a wiring, with a change counted for each.
pub fn build<L: Ledger>(
    alloc: Global,
    wiring: &Wiring,
    changes: &mut Steps<L>,
) -> Result<RouteTable, Memory>
    ensures rows { IfOk result (λ table. table ≡ flatten wiring.now) }
    ensures ticks { OnOk result (changes.new ≡ changes.old + set.len (flatten wiring.now)) }
{
    let mut table = RouteTable::new(alloc);
    put_whole(alloc, wiring, &mut table, changes)?;
    Ok(table)
}

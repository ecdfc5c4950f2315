//! Rows: as lines, and how those of two tables differ.

use crate::routes::parts::handle_of;
use dsde_base::Steps;
use dsde_lists::Memory;
use dsde_routes_table::RouteTable;
use dsde_routes_wiring::Row;
use dsde_structure::Via;
use std::alloc::Global;
use std::sync::ledger::Ledger;

/// Takes rows out of a table; how many of them it did not have.
fn take_out<L: Ledger>(table: &mut RouteTable, rows: &[Row], changes: &mut Steps<L>) -> u64 {
    let mut lacking: u64 = 0;
    for row in rows {
        if !table.remove_row(row, changes) {
            lacking = lacking.saturating_add(1);
        }
    }
    lacking
}

/// Takes the rows of one table out of another, those of sources up to a birth. How many rows only the one
/// has, and how many the other, which are left.
pub(crate) fn compare<L: Ledger>(
    one: &RouteTable,
    other: &mut RouteTable,
    last: u64,
    changes: &mut Steps<L>,
) -> (u64, u64) {
    let mut own: u64 = 0;
    let mut others: u64 = 0;
    for end in 0..last.saturating_mul(2).saturating_add(2) {
        let source = handle_of(end / 2);
        let port = (end % 2) as u32;
        own = own.saturating_add(take_out(other, one.rows_from(source, port), changes));
        others = others.saturating_add(other.rows_from(source, port).len() as u64);
    }
    (own, others)
}

/// A line for each of some rows; whether there was memory for them.
pub(crate) fn show_all(lines: &mut String, rows: &[Row]) -> bool {
    let mut held = true;
    for row in rows {
        held &= show(lines, row);
    }
    held
}

/// The source and the target of a row by birth and port, its rank, and its translations.
fn show(lines: &mut String, row: &Row) -> bool {
    let source = row.source.birth;
    let out = row.source_port;
    let target = row.target.birth;
    let port = row.target_port;
    let ends = write!(lines, "{source} {out} to {target} {port} rank").is_ok();
    let rank = show_rank(lines, row.rank.as_slice());
    ends & rank & show_chain(lines, row.chain.as_slice())
}

fn show_rank(lines: &mut String, rank: &[usize]) -> bool {
    let mut held = true;
    for number in rank {
        held &= write!(lines, " {number}").is_ok();
    }
    held & lines.push_str(" chain").is_ok()
}

fn show_chain(lines: &mut String, chain: &[Via]) -> bool {
    let mut held = true;
    for via in chain {
        let id = via.id.0;
        held &= write!(lines, " {id}").is_ok();
    }
    held & lines.push_str("\n").is_ok()
}

/// Takes a row out of a table and puts it in, twice each; what the table answers.
pub(crate) fn turn<L: Ledger>(
    alloc: Global,
    table: &mut RouteTable,
    row: &Row,
    changes: &mut Steps<L>,
) -> &'static str {
    let gone = table.remove_row(row, changes);
    let again = table.remove_row(row, changes);
    let fresh = put_copy(alloc, table, row, changes);
    let twice = put_copy(alloc, table, row, changes);
    if gone && !again && matches!(fresh, Ok(true)) && matches!(twice, Ok(false)) {
        "out true, again false; in true, again false"
    } else {
        "out or in, or again, is not answered so"
    }
}

/// Puts a row equal to this one into a table; whether it was not there.
fn put_copy<L: Ledger>(
    alloc: Global,
    table: &mut RouteTable,
    row: &Row,
    changes: &mut Steps<L>,
) -> Result<bool, Memory> {
    match (row.rank.copy(alloc), row.chain.copy(alloc)) {
        (Ok(rank), Ok(chain)) => table.insert_row(
            Row {
                source: row.source,
                source_port: row.source_port,
                target: row.target,
                target_port: row.target_port,
                rank,
                chain,
            },
            changes,
        ),
        _ => Err(Memory),
    }
}

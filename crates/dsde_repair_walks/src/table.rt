//! Rows put into a table and taken out.

ghost use Rattle.std.specs.Prelude.{◌≡◌, ◌+◌, ◌≤◌, ◌&&◌, ◌||◌, not, length, OnOk};
ghost use Rattle.std.specs.FinSet as set;
ghost use Rattle.dsde_routes_wiring.specs.declared.row.Row.{Row};
ghost use Rattle.dsde_routes_wiring.specs.Rows.{among, is_same_row};

use dsde_base::Steps;
use dsde_lists::Memory;
use dsde_routes_table::RouteTable;
use dsde_routes_wiring::Row;
use dsde_values::Seq;
use std::sync::ledger::Ledger;

/// Puts a row in, and counts a change where it was not there.
fn insert<L: Ledger>(
    table: &mut RouteTable,
    row: Row,
    changes: &mut Steps<L>,
) -> Result<bool, Memory>
    ensures has { OnOk result ((other : Row) → set.contains table.new other ≡ (is_same_row other row || set.contains table.old other)) }
    ensures ticks { changes.new + set.len table.old ≡ changes.old + set.len table.new }
    ensures tick { changes.new ≤ changes.old + 1 }
{
    table.insert_row(row, changes)
}

/// Takes a row out, and counts a change where it was there.
fn remove<L: Ledger>(table: &mut RouteTable, row: &Row, changes: &mut Steps<L>)
    ensures has { (other : Row) → set.contains table.new other ≡ (set.contains table.old other && not (is_same_row other row.now)) }
    ensures ticks { changes.new + set.len table.new ≡ changes.old + set.len table.old }
    ensures tick { changes.new ≤ changes.old + 1 }
{
    table.remove_row(row, changes);
}

/// Takes rows out, the last one first, and counts a change for each that was there. Rows that come in the
/// order in which a table has those of a port so go from its end.
pub fn remove_all<L: Ledger>(table: &mut RouteTable, rows: &[Row], changes: &mut Steps<L>)
    ensures has { (other : Row) → set.contains table.new other ≡ (set.contains table.old other && not (among rows.now other)) }
    ensures ticks { changes.new + set.len table.new ≡ changes.old + set.len table.old }
    ensures tick { changes.new ≤ changes.old + length rows.now }
{
    let mut index = rows.len();
    while index > 0 {
        index -= 1;
        remove(table, &rows[index], changes);
    }
}

/// Puts rows in, and counts a change for each that was not there; after an error, for each that was put in.
pub fn insert_all<L: Ledger>(
    table: &mut RouteTable,
    rows: Seq<Row>,
    changes: &mut Steps<L>,
) -> Result<(), Memory>
    ensures has { OnOk result ((other : Row) → set.contains table.new other ≡ (among rows other || set.contains table.old other)) }
    ensures ticks { changes.new + set.len table.old ≡ changes.old + set.len table.new }
    ensures tick { changes.new ≤ changes.old + length rows }
{
    for row in rows.into_vec() {
        insert(table, row, changes)?;
    }
    Ok(())
}

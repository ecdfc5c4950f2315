//! Where a row stands among others.

ghost use Rattle.std.specs.Prelude.{◌≡◌};
ghost use Rattle.dsde_routes_table.specs.Order.{AreInOrder};
ghost use Rattle.dsde_routes_table.specs.Places.{IsBeside, IsPlace};

use crate::order::{are_same_rows, compare_targets};
use dsde_routes_wiring::Row;
use std::cmp::Ordering;

/// Where a row stands to another.
pub enum Beside {
    Before,
    Same,
    Behind,
}

/// Where a row stands among others, or may stand.
pub enum Place {
    Here(usize),
    Free(usize),
}

/// Where `own` stands to `row`.
fn compare(own: &Row, row: &Row) -> Beside
    ensures { IsBeside own.now row.now result }
{
    match compare_targets(own, row) {
        Ordering::Less => Beside::Before,
        _ => {
            if are_same_rows(own, row) {
                Beside::Same
            } else {
                Beside::Behind
            }
        }
    }
}

/// Where a row stands among others in order. It looks from the end on, so it costs no more than to
/// put the row there or to take it out.
pub fn find(rows: &[Row], row: &Row) -> Place
    requires { AreInOrder rows.now }
    ensures { IsPlace rows.now row.now result }
{
    let mut index = rows.len();
    while index > 0 {
        match compare(&rows[index - 1], row) {
            Beside::Before => return Place::Free(index),
            Beside::Same => return Place::Here(index - 1),
            Beside::Behind => index -= 1,
        }
    }
    Place::Free(0)
}

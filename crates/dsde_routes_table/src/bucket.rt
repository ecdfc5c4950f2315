//! The rows from one port of a source.

ghost use Rattle.std.specs.Prelude.{◌≡◌, ◌↔◌, ◌∷◌, [], IsTrue, OnOk, OnErr, IfOk};
ghost use Rattle.dsde_routes_table.specs.Order.{AreInOrder, AreOnce, Puts, Takes};

use crate::place::{Place, find};
use dsde_lists::Memory;
use dsde_routes_wiring::Row;
use std::alloc::Global;
use std::marker::Model;

/// Rows in the order of their targets and their rank, no two of them equal.
#[derive(Drop)]
pub struct Bucket {
    rows: Vec<Row>,
}

impl Model for Bucket {
    ghost use Rattle.std.specs.Prelude.{List};
    ghost use Rattle.std.specs.Coded.{coded_list};
    ghost use Rattle.dsde_routes_wiring.specs.declared.row.Row.{Row};
    ghost use Rattle.dsde_routes_wiring.specs.contracts.row.Row as row;

    ghost Value = { List Row };

    ghost coded = { coded_list (row.the_row.coded) };

    ghost use Rattle.dsde_routes_table.specs.Order.{AreInOrder, AreOnce};

    ghost view = { λ bucket. bucket.rows.items };

    ghost invariant = { λ bucket. AreInOrder bucket.rows.items × AreOnce bucket.rows.items };
}

impl Bucket {
    /// One row.
    pub fn of(alloc: Global, row: Row) -> Result<Bucket, Memory>
        ensures { IfOk result (λ bucket. bucket ≡ row ∷ []) }
    {
        let mut rows = Vec::new(alloc);
        rows.push(row)?;
        Ok(Bucket { rows })
    }

    pub fn as_slice(&self) -> &[Row]
        ensures rows { result.now ≡ self.now }
        ensures order { AreInOrder self.now }
        ensures once { AreOnce self.now }
    {
        self.rows.as_slice()
    }

    pub fn is_empty(&self) -> bool
        ensures { IsTrue result ↔ (self.now ≡ []) }
    {
        self.rows.is_empty()
    }

    /// Puts a row in, if it is not there. Says whether it was not. Without memory all stays.
    pub fn put(&mut self, row: Row) -> Result<bool, Memory>
        ensures puts { IfOk result (λ is_new. Puts row self.old self.new is_new) }
        ensures kept { OnErr result (self.new ≡ self.old) }
    {
        match find(self.rows.as_slice(), &row) {
            Place::Here(_) => {
                drop(row);
                Ok(false)
            }
            Place::Free(index) => {
                self.rows.insert(index, row)?;
                Ok(true)
            }
        }
    }

    /// Takes a row out, if it is there. Says whether it was.
    pub fn take(&mut self, row: &Row) -> bool
        ensures { Takes row.now self.old self.new result }
    {
        match find(self.rows.as_slice(), row) {
            Place::Here(index) => {
                self.rows.remove(index);
                true
            }
            Place::Free(_) => false,
        }
    }
}

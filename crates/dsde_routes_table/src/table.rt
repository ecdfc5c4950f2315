//! Tables of routes.

ghost use Rattle.std.specs.Prelude.{◌≡◌, ◌↔◌, ◌+◌, not, true, false, IfOk, OnOk, OnErr, if◌then◌else◌, Contains};
ghost use Rattle.std.specs.FinSet as set;
ghost use Rattle.dsde_routes_wiring.specs.declared.row.Row.{Row};
ghost use Rattle.dsde_routes_wiring.specs.Flatten.{is_from};
ghost use Rattle.dsde_routes_table.specs.Order.{AreInOrder, AreOnce};

use crate::bucket::Bucket;
use crate::source::Source;
use dsde_base::Steps;
use dsde_lists::Memory;
use dsde_routes_wiring::Row;
use dsde_routes_wiring::given::bank::Handle;
use std::alloc::Global;
use std::collections::BTreeMap;
use std::marker::Model;
use std::sync::ledger::Ledger;

/// A set of rows, by the port that they come from.
#[derive(Drop)]
pub struct RouteTable {
    alloc: Global,
    buckets: BTreeMap<Source, Bucket>,
}

impl Model for RouteTable {
    ghost use Rattle.std.specs.FinSet as set;
    ghost use Rattle.dsde_routes_wiring.specs.Sets.{Rows};
    ghost use Rattle.dsde_routes_wiring.specs.contracts.row.Row as row;

    ghost Value = { Rows };

    ghost coded = { set.code (row.the_row.coded) };

    ghost use Rattle.dsde_routes_table.specs.Table.{rows_of, IsSound};

    ghost view = { λ table. rows_of table.buckets.entries };

    ghost invariant = { λ table. IsSound table.buckets };
}

impl RouteTable {
    /// The empty table, which takes no memory yet.
    pub fn new(alloc: Global) -> RouteTable
        ensures { result ≡ set.empty }
    {
        RouteTable {
            alloc,
            buckets: BTreeMap::new(alloc),
        }
    }

    /// Puts a row in, and counts a change if it was not there. Says whether it was not.
    pub fn insert_row<L: Ledger>(
        &mut self,
        row: Row,
        changes: &mut Steps<L>,
    ) -> Result<bool, Memory>
        ensures rows { OnOk result (self.new ≡ set.insert self.old row) }
        ensures is_new { IfOk result (λ is_new. is_new ≡ not (set.contains self.old row)) }
        ensures kept { OnErr result (self.new ≡ self.old) }
        ensures ticks { IfOk result (λ is_new. changes.new ≡ (if is_new then changes.old + 1 else changes.old)) }
        ensures no_tick { OnErr result (changes.new ≡ changes.old) }
    {
        let is_new = self.put(row)?;
        if is_new {
            changes.tick();
        }
        Ok(is_new)
    }

    /// Takes a row out, and counts a change if it was there. Says whether it was.
    pub fn remove_row<L: Ledger>(&mut self, row: &Row, changes: &mut Steps<L>) -> bool
        ensures rows { self.new ≡ set.remove self.old row.now }
        ensures was_there { result ≡ set.contains self.old row.now }
        ensures ticks { changes.new ≡ (if result then changes.old + 1 else changes.old) }
    {
        let was_there = self.take(row);
        if was_there {
            changes.tick();
        }
        was_there
    }

    /// The rows from a port of a source, each once, in the order of the birth of their target, its
    /// port, and their rank.
    pub fn rows_from(&self, source: Handle, port: u32) -> &[Row]
        ensures each { (row : Row) → Contains result.now row ↔ ((set.contains self.now row ≡ true) × (is_from source port row ≡ true)) }
        ensures order { AreInOrder result.now }
        ensures once { AreOnce result.now }
    {
        match self.buckets.get(&Source::new(source, port)) {
            Some(bucket) => bucket.as_slice(),
            None => &[],
        }
    }

    fn put(&mut self, row: Row) -> Result<bool, Memory>
        ensures rows { OnOk result (self.new ≡ set.insert self.old row) }
        ensures is_new { IfOk result (λ is_new. is_new ≡ not (set.contains self.old row)) }
        ensures kept { OnErr result (self.new ≡ self.old) }
    {
        let source = Source::new(row.source, row.source_port);
        match self.buckets.get_mut(&source) {
            Some(bucket) => bucket.put(row),
            None => {
                let bucket = Bucket::of(self.alloc, row)?;
                self.buckets.insert(source, bucket)?;
                Ok(true)
            }
        }
    }

    fn take(&mut self, row: &Row) -> bool
        ensures rows { self.new ≡ set.remove self.old row.now }
        ensures was_there { result ≡ set.contains self.old row.now }
    {
        let source = Source::new(row.source, row.source_port);
        let Some(bucket) = self.buckets.get_mut(&source) else {
            return false;
        };
        let was_there = bucket.take(row);
        if bucket.is_empty() {
            self.buckets.remove(&source);
        }
        was_there
    }
}

//! Parcels: what is pushed along rows.

ghost use Rattle.std.specs.Prelude.{◌≡◌, ◌++◌, IfOk, OnOk, IsPermutation};
ghost use Rattle.std.specs.List.{AllByRecursion};
ghost use Rattle.dsde_core_moves.specs.given.system.Program.{system};
ghost use Rattle.dsde_core_parcels.specs.Along.{GoAlong};
ghost use Rattle.dsde_core_parcels.specs.Parcels.{AreOrdered, ArePushed, GoFrom, parcel_cmp, parcel_with, parcels_of};

use crate::along::all_along;
use dsde_bank::Handle;
use dsde_core_moves::given::program::Program;
use dsde_core_moves::given::routes_table::RouteTable;
use dsde_lists::Memory;
use dsde_routes_wiring::{Rank, Row};
use dsde_values::{Seq, Value, Values};
use std::alloc::Global;
use std::cmp::Ordering;

/// What comes out of a port of a source.
#[derive(Drop)]
pub struct Outlet {
    pub source: Handle,
    pub port: u32,
    pub values: Values,
}

/// What is pushed along a row.
#[derive(Drop)]
pub struct Parcel {
    pub target: Handle,
    pub port: u32,
    pub rank: Rank,
    pub values: Values,
}

/// Puts what is made along a row behind parcels, if it is anything.
fn put(alloc: Global, parcels: &mut Seq<Parcel>, row: &Row, values: Values) -> Result<(), Memory>
    ensures { OnOk result (parcels.new ≡ parcels.old ++ parcel_with row.now values) }
{
    if values.is_empty() {
        return Ok(());
    }
    let rank = row.rank.copy(alloc)?;
    parcels.push(Parcel {
        target: row.target,
        port: row.target_port,
        rank,
        values,
    })?;
    Ok(())
}

/// Pushes values along rows. Where none is made of them there is no parcel.
fn push_along(
    alloc: Global,
    program: &Program,
    rows: &[Row],
    values: &[Value],
    parcels: &mut Seq<Parcel>,
) -> Result<(), Memory>
    requires { AllByRecursion (λ row. GoAlong program.now row.chain values.now) rows.now }
    ensures { OnOk result (parcels.new ≡ parcels.old ++ parcels_of (system program.now).translate values.now rows.now) }
{
    let mut rest = rows;
    while let Some((row, later)) = rest.split_first() {
        let made = all_along(alloc, program, row.chain.as_slice(), values)?;
        put(alloc, parcels, row, made)?;
        rest = later;
    }
    Ok(())
}

/// Pushes what comes out of each port along the rows from there: a parcel for each row along which
/// something is made, port by port and row by row. `Memory` where there is none: then nothing is given.
pub fn push_all(
    alloc: Global,
    program: &Program,
    table: &RouteTable,
    outlets: &[Outlet],
) -> Result<Seq<Parcel>, Memory>
    requires { AllByRecursion (GoFrom program.now table.now) outlets.now }
    ensures { IfOk result (λ parcels. ArePushed table.now (system program.now).translate outlets.now parcels) }
{
    let mut parcels = Seq::new(alloc);
    let mut rest = outlets;
    while let Some((outlet, later)) = rest.split_first() {
        let rows = table.rows_from(outlet.source, outlet.port);
        push_along(alloc, program, rows, outlet.values.as_slice(), &mut parcels)?;
        rest = later;
    }
    Ok(parcels)
}

/// The order of two parcels: by the birth of the target, its port, and the rank.
fn compare_parcels(one: &Parcel, other: &Parcel) -> Ordering
    ensures { result ≡ parcel_cmp one.now other.now }
{
    one.target
        .birth
        .cmp(&other.target.birth)
        .then(one.port.cmp(&other.port))
        .then(one.rank.as_slice().cmp(other.rank.as_slice()))
}

/// Parcels in the order of their targets, ports and ranks. `Memory` where there is none for the sort,
/// which takes it for more than 20 parcels: then they are gone.
pub fn sorted(parcels: Seq<Parcel>) -> Result<Seq<Parcel>, Memory>
    ensures same { IfOk result (λ all. IsPermutation parcels all) }
    ensures order { IfOk result (λ all. AreOrdered all) }
{
    let mut all = parcels.into_vec();
    all.sort_by(|one: &Parcel, other: &Parcel| compare_parcels(one, other))?;
    Ok(Seq::from_vec(all))
}

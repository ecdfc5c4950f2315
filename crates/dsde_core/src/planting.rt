//! A tree that fits a program is laid into a grove of its own.

ghost use Rattle.std.specs.Prelude.{◌≡◌, ◌<◌, ◌≤◌, IfOk};
ghost use Rattle.std.specs.Option.{option_copied};
ghost use Rattle.dsde_syntax.specs.declared.decl.Model.{Model as AModel};
ghost use Rattle.dsde_sim_tree.specs.Tree.{parts};
ghost use Rattle.dsde_sim_tree.specs.declared.step.TheConstants.{MOST_PARTS};
ghost use Rattle.dsde_core_moving.specs.given.sim_starting.Fitting.{FitsTree};
ghost use Rattle.dsde_core_moving.specs.given.core_moves.Flat.{rows_of, tree_of};
ghost use Rattle.dsde_core_moving.specs.given.core_moves.Resting.{Rests};

use dsde_base::Steps;
use dsde_core_moving::given::core_flat::{Planted, compact_schedule, due_time, plant};
use dsde_core_moving::given::core_moves::Flat;
use dsde_lists::Memory;
use dsde_routes::build;
use dsde_routes::given::routes_table::RouteTable;
use dsde_routes_wiring::Wiring;
use dsde_sim_tree::Sim;
use std::alloc::Global;
use std::marker::Brand;
use std::sync::ledger::{Blank, Ledger};

/// The table of the rows of a wiring; without a wiring it is empty.
fn rows_of<L: Ledger>(
    alloc: Global,
    wiring: Option<&Wiring>,
    changes: &mut Steps<L>,
) -> Result<RouteTable, Memory>
    ensures { IfOk result (λ rows. rows ≡ rows_of (option_copied wiring.entry)) }
{
    match wiring {
        Some(wiring) => build(alloc, wiring, changes),
        None => Ok(RouteTable::new(alloc)),
    }
}

/// `flat_of` with a count of looks and changes of its own, which is kept nowhere.
fn flat_with<L: Ledger>(alloc: Global, sim: Sim, blank: Blank) -> Result<Flat, Memory>
    requires name { blank.name ≡ L.name }
    requires shares { blank.parts ≡ L.parts }
    requires backed { 0 < blank.parts }
    requires fits { (model : AModel) × FitsTree model sim }
    requires within { parts sim ≤ MOST_PARTS }
    ensures tree { IfOk result (λ flat. tree_of flat ≡ sim) }
    ensures rests { IfOk result (λ flat. (model : AModel) → FitsTree model sim → Rests model flat) }
    ensures born { IfOk result (λ flat. flat.grove.next_birth ≡ parts sim) }
{
    let mut steps = Steps::<L>::new(blank);
    let Planted {
        grove,
        mut queue,
        root,
        wiring,
    } = plant(alloc, sim, &mut steps)?;
    compact_schedule(&grove, &mut queue);
    due_time(&grove, &mut queue, &mut steps);
    let rows = rows_of(alloc, wiring.as_ref(), &mut steps)?;
    Ok(Flat {
        root,
        grove,
        queue,
        rows,
        wiring,
    })
}

/// Lays a tree that fits a program, and has no more parts than may be alive, into a grove of its own, with its
/// schedule and the rows of its wiring: a flat state that rests and shows this tree. Its leaves are moved, not copied,
/// and each of its parts is born once. Looks and changes are counted nowhere. `Memory` where there is none.
pub fn flat_of(alloc: Global, sim: Sim) -> Result<Flat, Memory>
    requires fits { (model : AModel) × FitsTree model sim }
    requires within { parts sim ≤ MOST_PARTS }
    ensures tree { IfOk result (λ flat. tree_of flat ≡ sim) }
    ensures rests { IfOk result (λ flat. (model : AModel) → FitsTree model sim → Rests model flat) }
    ensures born { IfOk result (λ flat. flat.grove.next_birth ≡ parts sim) }
{
    flat_with::<Brand>(alloc, sim, Blank::new(1))
}

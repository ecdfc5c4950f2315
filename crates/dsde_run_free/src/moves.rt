//! Movers that move one after another.

ghost use Rattle.std.specs.Prelude.{◌≡◌, ◌+◌, ◌<◌, ◌^◌, IfOk};
ghost use Rattle.std.specs.List.{AllByRecursion};
ghost use Rattle.dsde_values.specs.When.{IsMoment};
ghost use Rattle.dsde_values.specs.Path.{root};
ghost use Rattle.dsde_sim_tree.specs.Told.{Tells};
ghost use Rattle.dsde_run.specs.given.system.Program.{system};
ghost use Rattle.dsde_sim_tree.specs.Tree.{model_of, parts};
ghost use Rattle.dsde_order.specs.given.sim_moving.Fitting.{FitsTree};
ghost use Rattle.dsde_sim_movers.specs.Movers.{move_each, move_one, path_behind};
ghost use Rattle.dsde_order.specs.Walking.{FitsDelivery};
ghost use Rattle.dsde_run_free.specs.Drawn.{AreSeated, HasSeat};

use dsde_order::{Mover, seat_of, step};
use dsde_run::given::program::Program;
use dsde_sim_movers::room_is_kept;
use dsde_sim_tree::{Event, Sim, TurnEnd};
use dsde_values::{Memory, Name, Path, Seq};
use std::alloc::Global;

/// The path of the part that stands behind these names.
fn part_path(alloc: Global, names: &[Name]) -> Result<Path, Memory>
    ensures { IfOk result (λ path. path ≡ path_behind root names.now) }
{
    let Path { names: mut own } = Path::root(alloc)?;
    for name in names {
        own.push(name.copy(alloc)?)?;
    }
    Ok(Path { names: own })
}

/// A component or an executive moves with what came to it.
fn move_one(
    alloc: Global,
    program: &Program,
    tree: Sim,
    mover: Mover,
    time: u64,
    room: u64,
    events: &mut Seq<Event>,
) -> Result<(Sim, u64), TurnEnd>
    requires moment { IsMoment time }
    requires few { parts tree + room < 2 ^ 64 }
    requires fits { FitsTree program.now tree }
    requires mover { FitsDelivery program.now mover }
    requires seat { HasSeat tree mover }
    ensures told { Tells (move_one (system program.now) root time mover tree room) events.old events.new result }
    ensures fits { IfOk result (λ after. FitsTree program.now after.0) }
    ensures model { IfOk result (λ after. model_of after.0 ≡ model_of tree) }
{
    let Mover { path, ports, .. } = mover;
    let (names, is_boss) = seat_of(&path);
    let part = part_path(alloc, names)?;
    step(
        alloc, program, tree, names, is_boss, &part, time, ports, room, events,
    )
}

/// Those that move do so one after another. Each has its seat when its turn comes.
pub(crate) fn move_each(
    alloc: Global,
    program: &Program,
    tree: Sim,
    order: Seq<Mover>,
    time: u64,
    room: u64,
    events: &mut Seq<Event>,
) -> Result<(Sim, u64), TurnEnd>
    requires moment { IsMoment time }
    requires few { parts tree + room < 2 ^ 64 }
    requires fits { FitsTree program.now tree }
    requires movers { AllByRecursion (FitsDelivery program.now) order }
    requires seats { AreSeated (system program.now) time order tree room }
    ensures told { Tells (move_each (system program.now) root time order tree room) events.old events.new result }
    ensures fits { IfOk result (λ after. FitsTree program.now after.0) }
    ensures model { IfOk result (λ after. model_of after.0 ≡ model_of tree) }
{
    room_is_kept();
    let mut tree = tree;
    let mut room = room;
    for mover in order.into_vec() {
        let (after, left) = move_one(alloc, program, tree, mover, time, room, events)?;
        tree = after;
        room = left;
    }
    Ok((tree, room))
}

//! The move of the part that has a seat.

ghost use Rattle.std.specs.Prelude.{◌≡◌, ◌+◌, ◌<◌, ◌^◌, [], length, true, false, IfOk};
ghost use Rattle.dsde_values.specs.When.{IsMoment};
ghost use Rattle.dsde_sim_tree.specs.Told.{Tells};
ghost use Rattle.dsde_sim_moving.specs.given.system.Program.{system};
ghost use Rattle.dsde_sim_tree.specs.declared.sim.Sim.TheVariants as sim;
ghost use Rattle.dsde_sim_tree.specs.Tree.{args_of, model_of, parts};
ghost use Rattle.dsde_sim_tree.specs.Move.{move_leaf_at};
ghost use Rattle.dsde_sim_moving.specs.given.system.Fitting.{FitsInputs};
ghost use Rattle.dsde_sim_moving.specs.Fitting.{FitsAtomic, FitsTree};
ghost use Rattle.dsde_sim_movers.specs.Movers.{moves};
ghost use Rattle.dsde_order.specs.Seating.{FitsSeat};

use dsde_sim_moving::given::program::Program;
use dsde_sim_moving::{boss_moves, copy_path, kind_of, take_move};
use dsde_sim_tree::given::formalism::Leaf;
use dsde_sim_tree::{Event, Net, Sim, TurnEnd};
use dsde_values::{Path, Seq, Values};
use std::alloc::Global;

/// An atomic component moves, where it is due or something came to it.
fn leaf_moves(
    alloc: Global,
    program: &Program,
    leaf: Leaf,
    path: &Path,
    time: u64,
    got: Seq<Values>,
    events: &mut Seq<Event>,
) -> Result<Leaf, TurnEnd>
    requires moment { IsMoment time }
    requires leaf { FitsAtomic program.now leaf }
    requires got { FitsInputs program.now leaf.model.0 got }
    requires few { length got < 2 ^ 32 }
    ensures told { Tells (move_leaf_at (system program.now) leaf path.now time got) events.old events.new result }
    ensures fits { IfOk result (FitsAtomic program.now) }
    ensures model { IfOk result (λ moved. moved.model ≡ leaf.model) }
    ensures args { IfOk result (λ moved. moved.args ≡ leaf.args) }
{
    match kind_of(&leaf, time, got.as_slice()) {
        Some(kind) => {
            let path = copy_path(alloc, path)?;
            take_move(alloc, program, leaf, kind, path, time, got, events)
        }
        None => Ok(leaf),
    }
}

/// The component that stands at a path moves, if it is no network.
fn component_moves(
    alloc: Global,
    program: &Program,
    sim: Sim,
    path: &Path,
    time: u64,
    got: Seq<Values>,
    room: u64,
    events: &mut Seq<Event>,
) -> Result<(Sim, u64), TurnEnd>
    requires moment { IsMoment time }
    requires fits { FitsTree program.now sim }
    requires got { FitsSeat program.now [] false got sim }
    requires ports { length got < 2 ^ 32 }
    ensures told { Tells (moves (system program.now) false path.now time got sim room) events.old events.new result }
    ensures fits { IfOk result (λ after. FitsTree program.now after.0) }
    ensures model { IfOk result (λ after. model_of after.0 ≡ model_of sim) }
    ensures args { IfOk result (λ after. args_of after.0 ≡ args_of sim) }
{
    match sim {
        Sim::Leaf(leaf) => {
            let leaf = leaf_moves(alloc, program, leaf, path, time, got, events)?;
            Ok((Sim::Leaf(leaf), room))
        }
        Sim::Net(net) => Ok((Sim::Net(net), room)),
    }
}

/// The executive of a network at a path moves, and its structure follows.
fn net_moves(
    alloc: Global,
    program: &Program,
    net: Net,
    path: &Path,
    time: u64,
    got: Seq<Values>,
    room: u64,
    events: &mut Seq<Event>,
) -> Result<(Sim, u64), TurnEnd>
    requires moment { IsMoment time }
    requires few { parts (sim.Net net) + room < 2 ^ 64 }
    requires fits { FitsTree program.now (sim.Net net) }
    requires got { FitsSeat program.now [] true got (sim.Net net) }
    requires ports { length got < 2 ^ 32 }
    ensures told { Tells (moves (system program.now) true path.now time got (sim.Net net) room) events.old events.new result }
    ensures fits { IfOk result (λ after. FitsTree program.now after.0) }
    ensures model { IfOk result (λ after. model_of after.0 ≡ model_of (sim.Net net)) }
    ensures args { IfOk result (λ after. args_of after.0 ≡ args_of (sim.Net net)) }
{
    let Net {
        model,
        args,
        boss,
        kids,
        links,
    } = net;
    let (net, rest) = boss_moves(
        alloc, program, model, args, boss, links, kids, path, time, got, room, events,
    )?;
    Ok((Sim::Net(net), rest))
}

/// The executive of what stands at a path moves, and its structure follows, if it is a network.
fn executive_moves(
    alloc: Global,
    program: &Program,
    sim: Sim,
    path: &Path,
    time: u64,
    got: Seq<Values>,
    room: u64,
    events: &mut Seq<Event>,
) -> Result<(Sim, u64), TurnEnd>
    requires moment { IsMoment time }
    requires few { parts sim + room < 2 ^ 64 }
    requires fits { FitsTree program.now sim }
    requires got { FitsSeat program.now [] true got sim }
    requires ports { length got < 2 ^ 32 }
    ensures told { Tells (moves (system program.now) true path.now time got sim room) events.old events.new result }
    ensures fits { IfOk result (λ after. FitsTree program.now after.0) }
    ensures model { IfOk result (λ after. model_of after.0 ≡ model_of sim) }
    ensures args { IfOk result (λ after. args_of after.0 ≡ args_of sim) }
{
    match sim {
        Sim::Leaf(leaf) => Ok((Sim::Leaf(leaf), room)),
        Sim::Net(net) => net_moves(
            alloc,
            program,
            net.into_inner(),
            path,
            time,
            got,
            room,
            events,
        ),
    }
}

/// The component that stands at a path moves, or the executive of the network that stands there.
pub(crate) fn moves(
    alloc: Global,
    program: &Program,
    sim: Sim,
    is_boss: bool,
    path: &Path,
    time: u64,
    got: Seq<Values>,
    room: u64,
    events: &mut Seq<Event>,
) -> Result<(Sim, u64), TurnEnd>
    requires moment { IsMoment time }
    requires few { parts sim + room < 2 ^ 64 }
    requires fits { FitsTree program.now sim }
    requires got { FitsSeat program.now [] is_boss got sim }
    requires ports { length got < 2 ^ 32 }
    ensures told { Tells (moves (system program.now) is_boss path.now time got sim room) events.old events.new result }
    ensures fits { IfOk result (λ after. FitsTree program.now after.0) }
    ensures model { IfOk result (λ after. model_of after.0 ≡ model_of sim) }
    ensures args { IfOk result (λ after. args_of after.0 ≡ args_of sim) }
{
    if is_boss {
        executive_moves(alloc, program, sim, path, time, got, room, events)
    } else {
        component_moves(alloc, program, sim, path, time, got, room, events)
    }
}

//! The step of the part that stands behind some names of a tree.

ghost use Rattle.std.specs.Prelude.{◌≡◌, ◌+◌, ◌∷◌, ◌<◌, ◌^◌, length, IfOk};
ghost use Rattle.dsde_values.specs.When.{IsMoment};
ghost use Rattle.dsde_sim_tree.specs.Told.{Tells};
ghost use Rattle.dsde_sim_moving.specs.given.system.Program.{system};
ghost use Rattle.dsde_sim_tree.specs.declared.sim.Sim.TheVariants as sim;
ghost use Rattle.dsde_sim_tree.specs.declared.sim.Sim.TheViews.{out-Net};
ghost use Rattle.dsde_sim_tree.specs.Tree.{args_of, model_of, parts};
ghost use Rattle.dsde_sim_moving.specs.Fitting.{FitsTree};
ghost use Rattle.dsde_sim_movers.specs.Movers.{moves, step_at};
ghost use Rattle.dsde_order.specs.Seating.{FitsSeat, IsAt};

use crate::kids::{exchange, index_of, stand_in};
use crate::moves::moves;
use dsde_lists::Boxed;
use dsde_sim_moving::given::program::Program;
use dsde_sim_tree::{Event, Net, Sim, TurnEnd};
use dsde_values::{Name, Path, Seq, Values, one_name, orders_are_total};
use std::alloc::Global;

/// In a tree the component that stands behind some names moves, or the executive of the network that
/// stands there, with what came to it and this room. The path is that of the part that stands behind the
/// names. Gives the tree after that, and the room that is left; where no such part stands there, nothing
/// moves.
#[cycle(stepping)]
pub fn step(
    alloc: Global,
    program: &Program,
    sim: Sim,
    names: &[Name],
    is_boss: bool,
    path: &Path,
    time: u64,
    got: Seq<Values>,
    room: u64,
    events: &mut Seq<Event>,
) -> Result<(Sim, u64), TurnEnd>
    requires moment { IsMoment time }
    requires few { parts sim + room < 2 ^ 64 }
    requires fits { FitsTree program.now sim }
    requires got { FitsSeat program.now names.now is_boss got sim }
    requires ports { length got < 2 ^ 32 }
    ensures told { Tells (step_at names.now (moves (system program.now) is_boss path.now time got) sim room) events.old events.new result }
    ensures fits { IfOk result (λ after. FitsTree program.now after.0) }
    ensures model { IfOk result (λ after. model_of after.0 ≡ model_of sim) }
    ensures args { IfOk result (λ after. args_of after.0 ≡ args_of sim) }
{
    match names.split_first() {
        None => moves(alloc, program, sim, is_boss, path, time, got, room, events),
        Some((name, rest)) => match sim {
            Sim::Leaf(leaf) => Ok((Sim::Leaf(leaf), room)),
            Sim::Net(net) => step_in(
                alloc,
                program,
                net.into_inner(),
                name,
                rest,
                is_boss,
                path,
                time,
                got,
                room,
                events,
            ),
        },
    }
}

/// The same beneath a network, whose component of a name leads there.
#[cycle(stepping)]
fn step_in(
    alloc: Global,
    program: &Program,
    net: Net,
    name: &Name,
    rest: &[Name],
    is_boss: bool,
    path: &Path,
    time: u64,
    got: Seq<Values>,
    room: u64,
    events: &mut Seq<Event>,
) -> Result<(Sim, u64), TurnEnd>
    requires moment { IsMoment time }
    requires few { parts (sim.Net net) + room < 2 ^ 64 }
    requires fits { FitsTree program.now (sim.Net net) }
    requires got { FitsSeat program.now (name.now ∷ rest.now) is_boss got (sim.Net net) }
    requires ports { length got < 2 ^ 32 }
    ensures told { Tells (step_at (name.now ∷ rest.now) (moves (system program.now) is_boss path.now time got) (sim.Net net) room) events.old events.new result }
    ensures fits { IfOk result (λ after. FitsTree program.now after.0) }
    ensures model { IfOk result (λ after. model_of after.0 ≡ model_of (sim.Net net)) }
    ensures args { IfOk result (λ after. args_of after.0 ≡ args_of (sim.Net net)) }
{
    match index_of(net.kids.as_slice(), name) {
        None => Ok((Sim::Net(Boxed::new(alloc, net)?), room)),
        Some(index) => step_at(
            alloc, program, net, index, name, rest, is_boss, path, time, got, room, events,
        ),
    }
}

/// The same where the component of the name stands at an index.
#[cycle(stepping)]
fn step_at(
    alloc: Global,
    program: &Program,
    net: Net,
    index: usize,
    name: &Name,
    rest: &[Name],
    is_boss: bool,
    path: &Path,
    time: u64,
    got: Seq<Values>,
    room: u64,
    events: &mut Seq<Event>,
) -> Result<(Sim, u64), TurnEnd>
    requires moment { IsMoment time }
    requires few { parts (sim.Net net) + room < 2 ^ 64 }
    requires fits { FitsTree program.now (sim.Net net) }
    requires at { IsAt name.now (out-Net net).kids index }
    requires got { FitsSeat program.now (name.now ∷ rest.now) is_boss got (sim.Net net) }
    requires ports { length got < 2 ^ 32 }
    ensures told { Tells (step_at (name.now ∷ rest.now) (moves (system program.now) is_boss path.now time got) (sim.Net net) room) events.old events.new result }
    ensures fits { IfOk result (λ after. FitsTree program.now after.0) }
    ensures model { IfOk result (λ after. model_of after.0 ≡ model_of (sim.Net net)) }
    ensures args { IfOk result (λ after. args_of after.0 ≡ args_of (sim.Net net)) }
{
    orders_are_total();
    one_name();
    let Net {
        model,
        args,
        boss,
        mut kids,
        links,
    } = net;
    let sim = exchange(&mut kids, index, stand_in(alloc));
    let (sim, room) = step(
        alloc, program, sim, rest, is_boss, path, time, got, room, events,
    )?;
    let _ = exchange(&mut kids, index, sim);
    let net = Net {
        model,
        args,
        boss,
        kids,
        links,
    };
    Ok((Sim::Net(Boxed::new(alloc, net)?), room))
}

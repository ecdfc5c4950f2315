//! One turn of a tree.

ghost use Rattle.std.specs.Prelude.{◌≡◌, ◌<◌, ◌^◌, length, IfOk};
ghost use Rattle.dsde_values.specs.When.{IsMoment};
ghost use Rattle.dsde_sim_tree.specs.Told.{Tells};
ghost use Rattle.dsde_run.specs.given.system.Program.{system};
ghost use Rattle.dsde_sim_tree.specs.Tree.{parts, model_of};
ghost use Rattle.dsde_sim_tree.specs.Turn.{turn, move_phase};
ghost use Rattle.dsde_run.specs.given.sim_moving.Fitting.{FitsGot};
ghost use Rattle.dsde_run.specs.given.sim_working.Working.{FitsItems, Stands};

use dsde_run::given::program::Program;
use dsde_run::given::sim_moving::{move_sim, parts};
use dsde_run::given::sim_telling::tell_outs;
use dsde_run::given::sim_working::{received, sent_by_root};
use dsde_sim_tree::{Event, MOST_PARTS, Sim, TurnEnd};
use dsde_values::{Item, Path, Seq, Values};
use std::alloc::Global;

/// Tells what the whole model sends, and takes its move phase.
fn move_phase(
    alloc: Global,
    program: &Program,
    tree: Sim,
    time: u64,
    got: Seq<Values>,
    sent: Seq<Values>,
    events: &mut Seq<Event>,
) -> Result<Sim, TurnEnd>
    requires moment { IsMoment time }
    requires stands { Stands program.now tree }
    requires got { FitsGot program.now (model_of tree).0 got }
    requires few { length sent < 2 ^ 32 }
    ensures told { Tells (move_phase (system program.now) tree time got sent) events.old events.new result }
    ensures stands { IfOk result (Stands program.now) }
    ensures model { IfOk result (λ after. model_of after ≡ model_of tree) }
{
    tell_outs(alloc, sent.as_slice(), events)?;
    let root = Path::root(alloc)?;
    let room = MOST_PARTS - parts(&tree);
    let (tree, _room) = move_sim(alloc, program, tree, &root, time, got, room, events)?;
    Ok(tree)
}

/// Takes one turn with these items of input, and tells it.
pub(crate) fn turn(
    alloc: Global,
    program: &Program,
    tree: Sim,
    number: u64,
    time: u64,
    items: &[Item],
    events: &mut Seq<Event>,
) -> Result<Sim, TurnEnd>
    requires moment { IsMoment time }
    requires stands { Stands program.now tree }
    requires items { FitsItems program.now (model_of tree).0 items.now }
    ensures told { Tells (turn (system program.now) tree number time items.now) events.old events.new result }
    ensures stands { IfOk result (Stands program.now) }
    ensures model { IfOk result (λ after. model_of after ≡ model_of tree) }
{
    events.push(Event::Turn { number, time })?;
    let sent = sent_by_root(alloc, program, &tree, time)?;
    let got = received(alloc, program, &tree, items)?;
    move_phase(alloc, program, tree, time, got, sent, events)
}

//! One turn of a tree, whose movers move in an order that is drawn.

ghost use Rattle.std.specs.Prelude.{◌≡◌, ℕ, ◌<◌, ◌^◌, length, IfOk, OnOk};
ghost use Rattle.std.specs.List.{AllByRecursion};
ghost use Rattle.dsde_values.specs.When.{IsMoment};
ghost use Rattle.dsde_values.specs.Path.{root};
ghost use Rattle.dsde_sim_tree.specs.Told.{Tells};
ghost use Rattle.dsde_run.specs.given.system.Program.{system};
ghost use Rattle.dsde_sim_tree.specs.Tree.{model_of};
ghost use Rattle.dsde_run.specs.given.sim_working.Working.{FitsItems, Stands};
ghost use Rattle.dsde_order.specs.given.sim_moving.Fitting.{FitsTree};
ghost use Rattle.dsde_sim_movers.specs.Turns.{free_phase};
ghost use Rattle.dsde_drawing.specs.Words.{behind};
ghost use Rattle.dsde_order.specs.Free.{drawn_movers, drawn_turn, moves_of};
ghost use Rattle.dsde_run_free.specs.Drawn.{AreSeated};
ghost use Rattle.dsde_order.specs.Walking.{Answers, FitsDelivery};

use crate::moves::move_each;
use dsde_drawing::draw;
use dsde_order::given::sim_moving::parts;
use dsde_order::{Mover, movers_in};
use dsde_run::given::program::Program;
use dsde_run::given::sim_telling::tell_outs;
use dsde_run::given::sim_working::{fitting_trees_are_named, received, sent_by_root};
use dsde_sim_movers::{
    deliveries_are_found, drawn_orders_are_lawful, lawful_movers_wait, lawful_orders_are_drawn,
    movers_are_orderly, room_is_kept,
};
use dsde_sim_tree::{Event, MOST_PARTS, Sim, TurnEnd};
use dsde_values::{Item, Memory, Path, Seq, Values};
use rand_pcg::Lcg64Xsh32;
use std::alloc::Global;

/// Those that move in a turn with these items of input, in the order that the next words draw.
fn drawn_movers(
    alloc: Global,
    program: &Program,
    tree: &Sim,
    time: u64,
    items: &[Item],
    words: &mut Lcg64Xsh32,
) -> Result<Seq<Mover>, Memory>
    requires tree { FitsTree program.now tree.now }
    requires items { FitsItems program.now (model_of tree.now).0 items.now }
    requires answers { Answers (system program.now) tree.now root time }
    ensures order { IfOk result (λ order. order ≡ drawn_movers (system program.now) tree.now time items.now words.old) }
    ensures words { OnOk result (words.new ≡ behind (moves_of (system program.now) tree.now time items.now) words.old) }
    ensures fit { IfOk result (AllByRecursion (FitsDelivery program.now)) }
{
    fitting_trees_are_named();
    movers_are_orderly();
    drawn_orders_are_lawful();
    let got = received(alloc, program, tree, items)?;
    let root = Path::root(alloc)?;
    let mut movers = Seq::new(alloc);
    movers_in(alloc, program, tree, root, time, got, &mut movers)?;
    draw(alloc, movers.into_vec(), words)
}

/// Tells what the whole model sends, and takes its move phase, in which the movers move in this order.
fn move_phase(
    alloc: Global,
    program: &Program,
    tree: Sim,
    time: u64,
    order: Seq<Mover>,
    sent: Seq<Values>,
    events: &mut Seq<Event>,
) -> Result<Sim, TurnEnd>
    requires moment { IsMoment time }
    requires stands { Stands program.now tree }
    requires movers { AllByRecursion (FitsDelivery program.now) order }
    requires seats { (room : ℕ) → AreSeated (system program.now) time order tree room }
    requires few { length sent < 2 ^ 32 }
    ensures told { Tells (free_phase (system program.now) tree time order sent) events.old events.new result }
    ensures stands { IfOk result (Stands program.now) }
    ensures model { IfOk result (λ after. model_of after ≡ model_of tree) }
{
    room_is_kept();
    tell_outs(alloc, sent.as_slice(), events)?;
    let room = MOST_PARTS - parts(&tree);
    let (tree, _room) = move_each(alloc, program, tree, order, time, room, events)?;
    Ok(tree)
}

/// Takes one turn with these items of input, and tells it: who moves does so in the order that the next
/// words draw, of which each takes one.
pub(crate) fn drawn_turn(
    alloc: Global,
    program: &Program,
    tree: Sim,
    number: u64,
    time: u64,
    items: &[Item],
    words: &mut Lcg64Xsh32,
    events: &mut Seq<Event>,
) -> Result<Sim, TurnEnd>
    requires moment { IsMoment time }
    requires stands { Stands program.now tree }
    requires items { FitsItems program.now (model_of tree).0 items.now }
    ensures told { Tells (drawn_turn (system program.now) tree number time items.now words.old) events.old events.new result }
    ensures words { OnOk result (words.new ≡ behind (moves_of (system program.now) tree time items.now) words.old) }
    ensures stands { IfOk result (Stands program.now) }
    ensures model { IfOk result (λ after. model_of after ≡ model_of tree) }
{
    fitting_trees_are_named();
    deliveries_are_found();
    drawn_orders_are_lawful();
    lawful_orders_are_drawn();
    lawful_movers_wait();
    events.push(Event::Turn { number, time })?;
    let sent = sent_by_root(alloc, program, &tree, time)?;
    let order = drawn_movers(alloc, program, &tree, time, items, words)?;
    move_phase(alloc, program, tree, time, order, sent, events)
}

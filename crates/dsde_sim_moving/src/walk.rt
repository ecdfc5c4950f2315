//! The walk of the move message through a tree.

ghost use Rattle.std.specs.Prelude.{◌≡◌, ◌+◌, ◌<◌, ◌≤◌, ◌^◌, [], map, IfOk};
ghost use Rattle.std.specs.List.{AllByRecursion};
ghost use Rattle.dsde_values.specs.When.{IsMoment};
ghost use Rattle.dsde_sim_tree.specs.Told.{Tells};
ghost use Rattle.dsde_sim_changing.specs.given.system.Program.{system};
ghost use Rattle.dsde_sim_tree.specs.Tree.{parts, parts_of_net, parts_of_kid, parts_of_kids, model_of, args_of, entry_of};
ghost use Rattle.dsde_sim_tree.specs.Move.{move, net_move, kid_move, with_sources};
ghost use Rattle.dsde_sim_tree.specs.declared.sim.Sim.TheVariants as variant;
ghost use Rattle.dsde_sim_tree.specs.declared.sim.Sim.TheViews.{out-Kid, out-Net};
ghost use Rattle.dsde_sim_changing.specs.given.sim_starting.Fitting.{FitsGot, FitsKid, FitsNet, FitsTree};
ghost use Rattle.dsde_sim_changing.specs.given.sim_starting.Starting.{IsNet};
ghost use Rattle.dsde_sim_moving.specs.Moving.{kid_with, kids_with, AreGot, FitsInside, IsAsked};

use crate::boxes::{boxes_in, sources_in};
use crate::leaf::move_leaf_at;
use crate::net::boss_moves;
use dsde_lists::Boxed;
use dsde_sim_changing::given::program::Program;
use dsde_sim_changing::given::sim_telling::below;
use dsde_sim_tree::given::structure::Sources;
use dsde_sim_tree::{Event, Kid, Net, Sim, TurnEnd};
use dsde_values::{Path, Seq, Values};
use std::alloc::Global;

/// How a part moves at a path and a time with what it received, with this room; and the room left.
#[cycle(moving)]
pub fn move_sim(
    alloc: Global,
    program: &Program,
    sim: Sim,
    path: &Path,
    time: u64,
    got: Seq<Values>,
    room: u64,
    events: &mut Seq<Event>,
) -> Result<(Sim, u64), TurnEnd>
    requires moment { IsMoment time }
    requires few { parts sim + room < 2 ^ 64 }
    requires fits { FitsTree program.now sim }
    requires got { FitsGot program.now (model_of sim).0 got }
    ensures told { Tells (move (system program.now) sim path.now time got room) events.old events.new result }
    ensures room { IfOk result (λ after. parts after.0 + after.1 ≤ parts sim + room) }
    ensures fits { IfOk result (λ after. FitsTree program.now after.0) }
    ensures model { IfOk result (λ after. model_of after.0 ≡ model_of sim) }
    ensures args { IfOk result (λ after. args_of after.0 ≡ args_of sim) }
{
    match sim {
        Sim::Leaf(leaf) => {
            let leaf = move_leaf_at(alloc, program, leaf, path, time, got, events)?;
            Ok((Sim::Leaf(leaf), room))
        }
        Sim::Net(net) => {
            let (net, rest) = move_net(alloc, program, net, path, time, got, room, events)?;
            Ok((Sim::Net(net), rest))
        }
    }
}

/// How a network moves.
#[cycle(moving)]
fn move_net(
    alloc: Global,
    program: &Program,
    net: Boxed<Net>,
    path: &Path,
    time: u64,
    got: Seq<Values>,
    room: u64,
    events: &mut Seq<Event>,
) -> Result<(Boxed<Net>, u64), TurnEnd>
    requires moment { IsMoment time }
    requires few { parts_of_net net + room < 2 ^ 64 }
    requires fits { FitsTree program.now (variant.Net net) }
    requires got { FitsGot program.now (model_of (variant.Net net)).0 got }
    ensures told { Tells (net_move (system program.now) net path.now time got room) events.old events.new result }
    ensures room { IfOk result (λ after. parts_of_net after.0 + after.1 ≤ parts_of_net net + room) }
    ensures fits { IfOk result (λ after. FitsNet program.now after.0) }
    ensures is { IfOk result (λ after. IsNet (out-Net net).model (out-Net net).args after.0) }
{
    let net = net.into_inner();
    let sources = sources_in(alloc, program, &net, path, time, got)?;
    with_sources(alloc, program, net, path, time, room, sources, events)
}

/// A network that knows what its links carry from: its components move, and then its executive.
#[cycle(moving)]
fn with_sources(
    alloc: Global,
    program: &Program,
    net: Net,
    path: &Path,
    time: u64,
    room: u64,
    sources: Sources,
    events: &mut Seq<Event>,
) -> Result<(Boxed<Net>, u64), TurnEnd>
    requires moment { IsMoment time }
    requires few { parts_of_net net + room < 2 ^ 64 }
    requires asked { IsAsked program.now net sources }
    ensures told { Tells (with_sources (system program.now) (out-Net net).model (out-Net net).args (out-Net net).boss (map (kid_move (system program.now)) (out-Net net).kids) (out-Net net).links path.now time room sources) events.old events.new result }
    ensures room { IfOk result (λ after. parts_of_net after.0 + after.1 ≤ parts_of_net net + room) }
    ensures fits { IfOk result (λ after. FitsNet program.now after.0) }
    ensures is { IfOk result (λ after. IsNet (out-Net net).model (out-Net net).args after.0) }
{
    let got = boxes_in(alloc, program, &net, &sources)?;
    let Net {
        model,
        args,
        boss,
        kids,
        links,
    } = net;
    let (kids, rest) = moved(alloc, program, kids, got.kids, path, time, room, events)?;
    boss_moves(
        alloc, program, model, args, boss, links, kids, path, time, got.boss, rest, events,
    )
}

/// The components of a network move one after another, each with what it got.
#[cycle(moving)]
fn moved(
    alloc: Global,
    program: &Program,
    kids: Seq<Kid>,
    gots: Seq<Seq<Values>>,
    path: &Path,
    time: u64,
    room: u64,
    events: &mut Seq<Event>,
) -> Result<(Seq<Kid>, u64), TurnEnd>
    requires moment { IsMoment time }
    requires few { parts_of_kids kids + room < 2 ^ 64 }
    requires fits { AllByRecursion (FitsInside program.now) kids }
    requires gots { AreGot program.now kids gots }
    ensures told { Tells (kids_with (system program.now) kids gots path.now time room []) events.old events.new result }
    ensures room { IfOk result (λ after. parts_of_kids after.0 + after.1 ≤ parts_of_kids kids + room) }
    ensures fits { IfOk result (λ after. AllByRecursion (FitsKid program.now) after.0) }
    ensures are { IfOk result (λ after. map entry_of after.0 ≡ map entry_of kids) }
{
    let mut done = Seq::new(alloc);
    let mut room = room;
    for (kid, got) in kids.into_vec().into_iter().zip(gots.into_vec()) {
        let (kid, rest) = move_kid(alloc, program, kid, path, time, got, room, events)?;
        room = rest;
        done.push(kid)?;
    }
    Ok((done, room))
}

/// A component of a network moves with what it got.
#[cycle(moving)]
fn move_kid(
    alloc: Global,
    program: &Program,
    kid: Kid,
    path: &Path,
    time: u64,
    got: Seq<Values>,
    room: u64,
    events: &mut Seq<Event>,
) -> Result<(Kid, u64), TurnEnd>
    requires moment { IsMoment time }
    requires few { parts_of_kid kid + room < 2 ^ 64 }
    requires fits { FitsInside program.now kid }
    requires got { FitsGot program.now (model_of (out-Kid kid).sim).0 got }
    ensures told { Tells (kid_with (system program.now) kid path.now time got room) events.old events.new result }
    ensures room { IfOk result (λ after. parts_of_kid after.0 + after.1 ≤ parts_of_kid kid + room) }
    ensures fits { IfOk result (λ after. FitsKid program.now after.0) }
    ensures is { IfOk result (λ after. entry_of after.0 ≡ entry_of kid) }
{
    let Kid { name, sim } = kid;
    let path = below(alloc, path, &name)?;
    let (sim, rest) = move_sim(alloc, program, sim, &path, time, got, room, events)?;
    Ok((Kid { name, sim }, rest))
}

//! Networks whose components have moved: the move of their executive, and the structure that follows.

ghost use Rattle.std.specs.Prelude.{◌≡◌, ◌+◌, ◌<◌, ◌≤◌, ◌^◌, length, map, true, IfOk};
ghost use Rattle.std.specs.List.{AllByRecursion};
ghost use Rattle.dsde_values.specs.When.{IsMoment};
ghost use Rattle.dsde_sim_tree.specs.Told.{Tells};
ghost use Rattle.dsde_sim_changing.specs.given.executive.Structure.{IsPlan};
ghost use Rattle.dsde_sim_tree.specs.given.structure.Survival.{IsInOrder};
ghost use Rattle.dsde_sim_changing.specs.given.system.Program.{system};
ghost use Rattle.dsde_sim_changing.specs.given.system.Fitting.{FitsArgs, FitsInputs, FitsLeaf};
ghost use Rattle.dsde_sim_tree.specs.Tree.{parts_of_net, parts_of_kids, entry_of};
ghost use Rattle.dsde_sim_tree.specs.Move.{replanned, after_boss, boss_moves};
ghost use Rattle.dsde_sim_changing.specs.given.sim_starting.Fitting.{FitsKid, FitsLinks, FitsNet, IsExecutive};
ghost use Rattle.dsde_sim_changing.specs.given.sim_starting.Starting.{IsNet};

use crate::leaf::{boss_move, kind_of};
use dsde_language::ModelId;
use dsde_lists::Boxed;
use dsde_sim_changing::change;
use dsde_sim_changing::given::program::Program;
use dsde_sim_changing::given::sim_starting::{net_of, structure_of};
use dsde_sim_tree::given::formalism::Leaf;
use dsde_sim_tree::given::structure::{Link, Plan};
use dsde_sim_tree::{Event, Kid, Net, TurnEnd};
use dsde_values::{Path, Seq, Values};
use std::alloc::Global;

/// A network whose executive has moved and has given it a plan.
fn replanned(
    alloc: Global,
    program: &Program,
    model: ModelId,
    args: Values,
    boss: Leaf,
    kids: Seq<Kid>,
    path: &Path,
    time: u64,
    room: u64,
    plan: Plan,
    events: &mut Seq<Event>,
) -> Result<(Boxed<Net>, u64), TurnEnd>
    requires moment { IsMoment time }
    requires few { parts_of_kids kids + room < 2 ^ 64 }
    requires args { FitsArgs program.now model.0 args }
    requires boss { FitsLeaf program.now boss }
    requires boss_is { IsExecutive model args boss }
    requires kids { AllByRecursion (FitsKid program.now) kids }
    requires order { IsInOrder (map entry_of kids) }
    requires plan { IsPlan program.now model.0 plan }
    requires network { (system program.now).is_network model ≡ true }
    ensures told { Tells (replanned (system program.now) model args boss kids path.now time room plan) events.old events.new result }
    ensures room { IfOk result (λ after. parts_of_net after.0 + after.1 ≤ parts_of_kids kids + room + 2) }
    ensures fits { IfOk result (λ after. FitsNet program.now after.0) }
    ensures is { IfOk result (λ after. IsNet model args after.0) }
{
    let Plan { entries, links } = plan;
    let (kids, rest) = change(alloc, program, entries, kids, path, time, room, events)?;
    let net = net_of(alloc, model, args, boss, kids, links)?;
    Ok((net, rest))
}

/// A network whose executive has moved: the structure of its new state is taken.
fn after_boss(
    alloc: Global,
    program: &Program,
    model: ModelId,
    args: Values,
    kids: Seq<Kid>,
    path: &Path,
    time: u64,
    room: u64,
    boss: Leaf,
    events: &mut Seq<Event>,
) -> Result<(Boxed<Net>, u64), TurnEnd>
    requires moment { IsMoment time }
    requires few { parts_of_kids kids + room < 2 ^ 64 }
    requires args { FitsArgs program.now model.0 args }
    requires boss { FitsLeaf program.now boss }
    requires boss_is { IsExecutive model args boss }
    requires kids { AllByRecursion (FitsKid program.now) kids }
    requires order { IsInOrder (map entry_of kids) }
    requires network { (system program.now).is_network model ≡ true }
    ensures told { Tells (after_boss (system program.now) model args kids path.now time room boss) events.old events.new result }
    ensures room { IfOk result (λ after. parts_of_net after.0 + after.1 ≤ parts_of_kids kids + room + 2) }
    ensures fits { IfOk result (λ after. FitsNet program.now after.0) }
    ensures is { IfOk result (λ after. IsNet model args after.0) }
{
    let plan = structure_of(alloc, program, model, &args, &boss, path)?;
    replanned(
        alloc, program, model, args, boss, kids, path, time, room, plan, events,
    )
}

/// A network whose components have moved: its executive moves, and where it did, its structure follows.
pub fn boss_moves(
    alloc: Global,
    program: &Program,
    model: ModelId,
    args: Values,
    boss: Leaf,
    links: Seq<Link>,
    kids: Seq<Kid>,
    path: &Path,
    time: u64,
    got: Seq<Values>,
    room: u64,
    events: &mut Seq<Event>,
) -> Result<(Boxed<Net>, u64), TurnEnd>
    requires moment { IsMoment time }
    requires few { parts_of_kids kids + room < 2 ^ 64 }
    requires args { FitsArgs program.now model.0 args }
    requires boss { FitsLeaf program.now boss }
    requires boss_is { IsExecutive model args boss }
    requires kids { AllByRecursion (FitsKid program.now) kids }
    requires links { FitsLinks program.now model (map entry_of kids) links }
    requires got { FitsInputs program.now model.0 got }
    requires ports { length got < 2 ^ 32 }
    ensures told { Tells (boss_moves (system program.now) model args boss links kids path.now time got room) events.old events.new result }
    ensures room { IfOk result (λ after. parts_of_net after.0 + after.1 ≤ parts_of_kids kids + room + 2) }
    ensures fits { IfOk result (λ after. FitsNet program.now after.0) }
    ensures is { IfOk result (λ after. IsNet model args after.0) }
{
    match kind_of(&boss, time, got.as_slice()) {
        Some(kind) => {
            let boss = boss_move(alloc, program, boss, kind, path, time, got, events)?;
            after_boss(
                alloc, program, model, args, kids, path, time, room, boss, events,
            )
        }
        None => Ok((net_of(alloc, model, args, boss, kids, links)?, room)),
    }
}

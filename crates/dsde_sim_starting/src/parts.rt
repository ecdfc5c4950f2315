//! The start of the parts of a tree.

ghost use Rattle.std.specs.Prelude.{◌≡◌, ◌+◌, ◌<◌, [], map, true, false, Err, IfOk};
ghost use Rattle.std.specs.List.{AllByRecursion};
ghost use Rattle.dsde_values.specs.When.{IsMoment};
ghost use Rattle.dsde_faults.specs.declared.kind.Site.TheVariants as site;
ghost use Rattle.dsde_sim_tree.specs.given.formalism.Leaf.{start_leaf};
ghost use Rattle.dsde_sim_tree.specs.declared.fault.TurnEnd.TheVariants as turn_end;
ghost use Rattle.dsde_sim_tree.specs.Told.{at, to_boss, Comes, Tells};
ghost use Rattle.dsde_executive.specs.given.system.Program.{system};
ghost use Rattle.dsde_executive.specs.given.system.Fitting.{FitsArgs, FitsLeaf};
ghost use Rattle.dsde_executive.specs.given.system.Plans.{FitsEntry};
ghost use Rattle.dsde_sim_tree.specs.Tree.{parts, parts_of_net, parts_of_kid, parts_of_kids, model_of, args_of, entry_of, started_as};
ghost use Rattle.dsde_sim_tree.specs.Start.{entered, start_leaf_at, start_atomic, start, start_net, started_kid, starts, with_boss};
ghost use Rattle.dsde_sim_starting.specs.Fitting.{FitsTree, FitsKid, FitsNet, IsExecutive};
ghost use Rattle.dsde_sim_starting.specs.Starting.{IsNet};

use crate::networks::{net_of, structure_of};
use dsde_executive::given::program::Program;
use dsde_faults::{FaultKind, LeafEnd, Site};
use dsde_language::ModelId;
use dsde_lists::Boxed;
use dsde_sim_gathering::given::atomic::{component_at, is_network, network_at, start_leaf};
use dsde_sim_telling::{at, below, boss_of, tell_leaf, tell_net};
use dsde_sim_tree::given::formalism::Leaf;
use dsde_sim_tree::given::structure::{Entry, Plan};
use dsde_sim_tree::{Event, Kid, Net, Sim, TurnEnd};
use dsde_values::{Path, Seq, Values, copy_values};
use std::alloc::Global;

/// The room that is left where a part may start, of a model whose word is at a place.
fn entered(alloc: Global, left: u32, path: &Path, at: u32, room: u64) -> Result<u64, TurnEnd>
    ensures comes { Comes (entered left path.now at room) result }
    ensures room { IfOk result (λ rest. rest + 1 ≡ room) }
    ensures left { IfOk result (λ rest. 0 < left) }
{
    let kind = if left == 0 {
        FaultKind::TooDeep
    } else if room == 0 {
        FaultKind::Crowded
    } else {
        return Ok(room - 1);
    };
    fault(alloc, path, kind, at)
}

/// A fault at the start of a part.
fn fault(alloc: Global, path: &Path, kind: FaultKind, place: u32) -> Result<u64, TurnEnd>
    ensures { Comes (Err (turn_end.Fault path.now site.Start kind place)) result }
{
    at(alloc, path, Err(LeafEnd::Fault(Site::Start, kind, place)))
}

/// The start of an atomic component or of an executive, where there is room for it, and the room left.
fn start_leaf_at(
    alloc: Global,
    program: &Program,
    left: u32,
    model: ModelId,
    boss: bool,
    args: Values,
    path: &Path,
    time: u64,
    room: u64,
    events: &mut Seq<Event>,
) -> Result<(Leaf, u64), TurnEnd>
    requires moment { IsMoment time }
    requires args { FitsArgs program.now model.0 args }
    ensures told { Tells (start_leaf_at (system program.now) left model boss args path.now time room) events.old events.new result }
    ensures room { IfOk result (λ started. started.1 + 1 ≡ room) }
    ensures fits { IfOk result (λ started. FitsLeaf program.now started.0) }
    ensures model { IfOk result (λ started. started.0.model ≡ model) }
    ensures args { IfOk result (λ started. started.0.args ≡ args) }
    ensures boss { IfOk result (λ started. started.0.boss ≡ boss) }
{
    let rest = entered(alloc, left, path, component_at(program, model), room)?;
    let leaf = started(alloc, program, model, boss, args, path, time)?;
    tell_leaf(alloc, path, model, &leaf, events)?;
    Ok((leaf, rest))
}

/// An atomic component or an executive that starts.
fn started(
    alloc: Global,
    program: &Program,
    model: ModelId,
    boss: bool,
    args: Values,
    path: &Path,
    time: u64,
) -> Result<Leaf, TurnEnd>
    requires moment { IsMoment time }
    requires args { FitsArgs program.now model.0 args }
    ensures comes { Comes (at path.now (start_leaf (system program.now) model boss args time)) result }
    ensures fits { IfOk result (λ leaf. FitsLeaf program.now leaf) }
    ensures model { IfOk result (λ leaf. leaf.model ≡ model) }
    ensures args { IfOk result (λ leaf. leaf.args ≡ args) }
    ensures boss { IfOk result (λ leaf. leaf.boss ≡ boss) }
{
    at(
        alloc,
        path,
        start_leaf(alloc, program, model, boss, args, time),
    )
}

/// A part's start, where so many names may stand behind the path that it is in; and the room left.
#[cycle(start)]
pub fn start(
    alloc: Global,
    program: &Program,
    left: u32,
    model: ModelId,
    args: Values,
    path: &Path,
    time: u64,
    room: u64,
    events: &mut Seq<Event>,
) -> Result<(Sim, u64), TurnEnd>
    requires moment { IsMoment time }
    requires args { FitsArgs program.now model.0 args }
    ensures told { Tells (start (system program.now) left model args path.now time room) events.old events.new result }
    ensures room { IfOk result (λ started. parts started.0 + started.1 ≡ room) }
    ensures fits { IfOk result (λ started. FitsTree program.now started.0) }
    ensures model { IfOk result (λ started. model_of started.0 ≡ model) }
    ensures args { IfOk result (λ started. args_of started.0 ≡ args) }
{
    if !is_network(program, model) {
        return start_atomic(alloc, program, left, model, args, path, time, room, events);
    }
    let rest = entered(alloc, left, path, network_at(program, model), room)?;
    let (net, rest) = start_net(
        alloc,
        program,
        left - 1,
        model,
        args,
        path,
        time,
        rest,
        events,
    )?;
    Ok((Sim::Net(net), rest))
}

/// The start of an atomic component.
fn start_atomic(
    alloc: Global,
    program: &Program,
    left: u32,
    model: ModelId,
    args: Values,
    path: &Path,
    time: u64,
    room: u64,
    events: &mut Seq<Event>,
) -> Result<(Sim, u64), TurnEnd>
    requires moment { IsMoment time }
    requires atomic { (system program.now).is_network model ≡ false }
    requires args { FitsArgs program.now model.0 args }
    ensures told { Tells (start_atomic (system program.now) left model args path.now time room) events.old events.new result }
    ensures room { IfOk result (λ started. parts started.0 + started.1 ≡ room) }
    ensures fits { IfOk result (λ started. FitsTree program.now started.0) }
    ensures model { IfOk result (λ started. model_of started.0 ≡ model) }
    ensures args { IfOk result (λ started. args_of started.0 ≡ args) }
{
    let (leaf, rest) = start_leaf_at(
        alloc, program, left, model, false, args, path, time, room, events,
    )?;
    Ok((Sim::Leaf(leaf), rest))
}

/// The start of a network that has its room.
#[cycle(start)]
fn start_net(
    alloc: Global,
    program: &Program,
    left: u32,
    model: ModelId,
    args: Values,
    path: &Path,
    time: u64,
    room: u64,
    events: &mut Seq<Event>,
) -> Result<(Boxed<Net>, u64), TurnEnd>
    requires moment { IsMoment time }
    requires network { (system program.now).is_network model ≡ true }
    requires args { FitsArgs program.now model.0 args }
    ensures told { Tells (start_net (system program.now) left (start (system program.now) left) model args path.now time room) events.old events.new result }
    ensures room { IfOk result (λ started. parts_of_net started.0 + started.1 ≡ room + 1) }
    ensures fits { IfOk result (λ started. FitsNet program.now started.0) }
    ensures is { IfOk result (λ started. IsNet model args started.0) }
{
    tell_net(alloc, path, model, events)?;
    let (boss, rest) = start_boss(alloc, program, left, model, &args, path, time, room, events)?;
    with_boss(
        alloc, program, left, model, args, path, time, boss, rest, events,
    )
}

/// The start of the executive of the network at a path.
fn start_boss(
    alloc: Global,
    program: &Program,
    left: u32,
    model: ModelId,
    args: &Values,
    path: &Path,
    time: u64,
    room: u64,
    events: &mut Seq<Event>,
) -> Result<(Leaf, u64), TurnEnd>
    requires moment { IsMoment time }
    requires args { FitsArgs program.now model.0 args.now }
    ensures told { Tells (start_leaf_at (system program.now) left model true args.now (to_boss path.now) time room) events.old events.new result }
    ensures room { IfOk result (λ started. started.1 + 1 ≡ room) }
    ensures fits { IfOk result (λ started. FitsLeaf program.now started.0) }
    ensures is { IfOk result (λ started. IsExecutive model args.now started.0) }
{
    let path = boss_of(alloc, path)?;
    let args = copy_values(alloc, args.as_slice())?;
    start_leaf_at(
        alloc, program, left, model, true, args, &path, time, room, events,
    )
}

/// A network whose executive has started: the components of its structure start.
#[cycle(start)]
fn with_boss(
    alloc: Global,
    program: &Program,
    left: u32,
    model: ModelId,
    args: Values,
    path: &Path,
    time: u64,
    boss: Leaf,
    room: u64,
    events: &mut Seq<Event>,
) -> Result<(Boxed<Net>, u64), TurnEnd>
    requires moment { IsMoment time }
    requires network { (system program.now).is_network model ≡ true }
    requires args { FitsArgs program.now model.0 args }
    requires boss { FitsLeaf program.now boss }
    requires boss_is { IsExecutive model args boss }
    ensures told { Tells (with_boss (system program.now) (start (system program.now) left) model args path.now time (boss, room)) events.old events.new result }
    ensures room { IfOk result (λ started. parts_of_net started.0 + started.1 ≡ room + 2) }
    ensures fits { IfOk result (λ started. FitsNet program.now started.0) }
    ensures is { IfOk result (λ started. IsNet model args started.0) }
{
    let Plan { entries, links } = structure_of(alloc, program, model, &args, &boss, path)?;
    let (kids, rest) = starts(alloc, program, left, entries, path, time, room, events)?;
    let net = net_of(alloc, model, args, boss, kids, links)?;
    Ok((net, rest))
}

/// The components of a structure start one after another.
#[cycle(start)]
fn starts(
    alloc: Global,
    program: &Program,
    left: u32,
    entries: Seq<Entry>,
    path: &Path,
    time: u64,
    room: u64,
    events: &mut Seq<Event>,
) -> Result<(Seq<Kid>, u64), TurnEnd>
    requires moment { IsMoment time }
    requires entries { AllByRecursion (FitsEntry program.now) entries }
    ensures told { Tells (starts (start (system program.now) left) entries path.now time room []) events.old events.new result }
    ensures room { IfOk result (λ started. parts_of_kids started.0 + started.1 ≡ room) }
    ensures fits { IfOk result (λ started. AllByRecursion (FitsKid program.now) started.0) }
    ensures are { IfOk result (λ started. map entry_of started.0 ≡ map started_as entries) }
{
    let mut done = Seq::new(alloc);
    let mut room = room;
    for entry in entries.into_vec() {
        let (kid, rest) = start_kid(alloc, program, left, entry, path, time, room, events)?;
        room = rest;
        done.push(kid)?;
    }
    Ok((done, room))
}

/// An entry starts as a component of the network at a path.
#[cycle(start)]
pub fn start_kid(
    alloc: Global,
    program: &Program,
    left: u32,
    entry: Entry,
    path: &Path,
    time: u64,
    room: u64,
    events: &mut Seq<Event>,
) -> Result<(Kid, u64), TurnEnd>
    requires moment { IsMoment time }
    requires entry { FitsEntry program.now entry }
    ensures told { Tells (started_kid (start (system program.now) left) entry path.now time room) events.old events.new result }
    ensures room { IfOk result (λ started. parts_of_kid started.0 + started.1 ≡ room) }
    ensures fits { IfOk result (λ started. FitsKid program.now started.0) }
    ensures is { IfOk result (λ started. entry_of started.0 ≡ started_as entry) }
{
    let Entry {
        name,
        model,
        args,
        ..
    } = entry;
    let path = below(alloc, path, &name)?;
    let (sim, rest) = start(alloc, program, left, model, args, &path, time, room, events)?;
    Ok((Kid { name, sim }, rest))
}

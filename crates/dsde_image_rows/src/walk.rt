//! The walk over the rows of an image: each part that is expected takes the next row.

ghost use Rattle.std.specs.Prelude.{◌≡◌, ◌<◌, ◌-◌, ◌^◌, [], false, map, true, IfOk};
ghost use Rattle.std.specs.List.{AllByRecursion};
ghost use Rattle.dsde_values.specs.Path.{root};
ghost use Rattle.dsde_values.specs.When.{IsMoment};
ghost use Rattle.dsde_language.specs.DeclaredModels.{top_number};
ghost use Rattle.dsde_sim_tree.specs.given.structure.Survival.{role, roles};
ghost use Rattle.dsde_sim_starting.specs.given.executive.Structure.{IsPlan};
ghost use Rattle.dsde_sound_structures.specs.given.system.Program.{system};
ghost use Rattle.dsde_sound_structures.specs.given.system.Fitting.{FitsArgs};
ghost use Rattle.dsde_sound_structures.specs.given.system.Plans.{FitsEntry};
ghost use Rattle.dsde_sim_tree.specs.Told.{to_boss};
ghost use Rattle.dsde_sim_tree.specs.Tree.{model_of, entry_of};
ghost use Rattle.dsde_sim_starting.specs.Fitting.{FitsKid, FitsTree};
ghost use Rattle.dsde_image_rows.specs.Fits.{RestoredRight};
ghost use Rattle.dsde_image_rows.specs.Walk.{took, took_net, planned, restored_atomic, restored_boss, restored_net, restored_kids, with_boss, restored, tree_of};
ghost use Rattle.dsde_image_rows.specs.Script.{script};
ghost use Rattle.dsde_image_rows.specs.Walks.{Walks, WalksOn, Misses, HasLocation, FitsOwn, restored_kid, whole_tree};

use crate::ends::{left_over, misfit};
use crate::parts::{atomic_in, boss_in, net_in};
use crate::{RestoreEnd, is_at, left_are_last, only_images_fit, scripts_are_exact};
use dsde_faults::{EvalEnd, LeafEnd};
use dsde_image::{Row, Version};
use dsde_language::ModelId;
use dsde_sim_starting::given::atomic::{is_network, top_args};
use dsde_sim_starting::given::executive::structure;
use dsde_sim_starting::given::program::Program;
use dsde_sim_starting::given::sim_telling::{below, boss_of};
use dsde_sim_starting::net_of;
use dsde_sim_tree::given::formalism::Leaf;
use dsde_sim_tree::given::structure::{Entry, Plan};
use dsde_sim_tree::{DEEPEST, Kid, MOST_PARTS, Sim};
use dsde_values::{Memory, Path, Seq, Values};
use std::alloc::Global;

/// What a walk goes by: a program, and the version and the time of an image of it.
#[derive(Drop)]
struct Walk<'p, 'm> {
    alloc: Global,
    program: &'p Program<'m>,
    version: Version,
    time: u64,
}

/// The rows that are left, and how many parts may still come.
#[derive(Drop)]
struct Left<'r> {
    rows: &'r [Row],
    room: u64,
}

/// The next row, where it stands at this path; so many names may stand behind the path that it is in.
fn took<'r>(
    walk: &Walk<'_, '_>,
    left: u32,
    path: &Path,
    here: &mut Left<'r>,
) -> Result<&'r Row, RestoreEnd>
    ensures walks { Walks (λ row. (row.now, (here.new.rows.now, here.new.room))) result (took walk.now.version left path.now (here.old.rows.now, here.old.room)) }
{
    if left == 0 || here.room == 0 {
        return Err(misfit(walk.alloc, path));
    }
    let Some((row, rest)) = here.rows.split_first() else {
        return Err(misfit(walk.alloc, path));
    };
    if is_at(walk.alloc, walk.version, path, &row.location)? {
        here.rows = rest;
        here.room -= 1;
        Ok(row)
    } else {
        Err(misfit(walk.alloc, path))
    }
}

/// An atomic component, restored from the next row.
fn restored_atomic(
    walk: &Walk<'_, '_>,
    left: u32,
    soft: bool,
    model: ModelId,
    args: Values,
    path: &Path,
    here: &mut Left<'_>,
) -> Result<Sim, RestoreEnd>
    requires moment { IsMoment walk.now.time }
    requires atomic { (system walk.now.program.now).is_network model ≡ false }
    requires args { FitsArgs walk.now.program.now model.0 args }
    ensures walks { WalksOn result (here.new.rows.now, here.new.room) (restored_atomic (system walk.now.program.now) (script walk.now.program.now) walk.now.version walk.now.time left soft model args path.now (here.old.rows.now, here.old.room)) }
    ensures fits { IfOk result (FitsTree walk.now.program.now) }
    ensures model { IfOk result (λ tree. model_of tree ≡ model) }
{
    let row = took(walk, left, path, here)?;
    match atomic_in(walk.alloc, walk.program, soft, model, args, walk.time, row)? {
        Some(leaf) => Ok(Sim::Leaf(leaf)),
        None => Err(misfit(walk.alloc, path)),
    }
}

/// The executive of the network at a path, restored from the next row.
fn restored_boss(
    walk: &Walk<'_, '_>,
    left: u32,
    model: ModelId,
    args: &Values,
    path: &Path,
    here: &mut Left<'_>,
) -> Result<Leaf, RestoreEnd>
    requires moment { IsMoment walk.now.time }
    requires args { FitsArgs walk.now.program.now model.0 args.now }
    ensures walks { WalksOn result (here.new.rows.now, here.new.room) (restored_boss (system walk.now.program.now) (script walk.now.program.now) walk.now.version walk.now.time left model args.now path.now (here.old.rows.now, here.old.room)) }
    ensures fits { IfOk result (FitsOwn walk.now.program.now model true args.now) }
{
    let path = boss_of(walk.alloc, path)?;
    let row = took(walk, left, &path, here)?;
    match boss_in(walk.alloc, walk.program, model, args, walk.time, row)? {
        Some(boss) => Ok(boss),
        None => Err(RestoreEnd::DoesNotFit(path)),
    }
}

/// The arguments of a network by its own row.
fn took_net(
    walk: &Walk<'_, '_>,
    left: u32,
    soft: bool,
    model: ModelId,
    args: Values,
    path: &Path,
    here: &mut Left<'_>,
) -> Result<Values, RestoreEnd>
    requires { FitsArgs walk.now.program.now model.0 args }
    ensures walks { WalksOn result (here.new.rows.now, here.new.room) (took_net (script walk.now.program.now) walk.now.version left soft model args path.now (here.old.rows.now, here.old.room)) }
    ensures fits { IfOk result (FitsArgs walk.now.program.now model.0) }
{
    let row = took(walk, left, path, here)?;
    match net_in(walk.alloc, walk.program, soft, model, args, row)? {
        Some(own) => Ok(own),
        None => Err(misfit(walk.alloc, path)),
    }
}

/// The executive of the network at a path does not fit.
fn boss_misfit(alloc: Global, path: &Path) -> RestoreEnd
    ensures { Misses (to_boss path.now) result }
{
    match boss_of(alloc, path) {
        Ok(path) => RestoreEnd::DoesNotFit(path),
        Err(Memory) => RestoreEnd::Memory,
    }
}

/// The structure that goes with the state of the executive of the network at a path.
fn planned(
    walk: &Walk<'_, '_>,
    model: ModelId,
    args: &Values,
    boss: &Leaf,
    path: &Path,
) -> Result<Plan, RestoreEnd>
    requires network { (system walk.now.program.now).is_network model ≡ true }
    requires args { FitsArgs walk.now.program.now model.0 args.now }
    requires boss { FitsOwn walk.now.program.now model true args.now boss.now }
    ensures walks { Walks (λ plan. plan) result (planned (system walk.now.program.now) model args.now boss.now path.now) }
    ensures fits { IfOk result (IsPlan walk.now.program.now model.0) }
{
    match structure(walk.alloc, walk.program, model, args, &boss.state) {
        Ok(plan) => Ok(plan),
        Err(EvalEnd::Memory) => Err(RestoreEnd::Memory),
        Err(EvalEnd::Fault(_, _)) => Err(boss_misfit(walk.alloc, path)),
    }
}

/// The part that is restored, where so many names may stand behind the path that it is in.
#[cycle(restoring)]
fn restored(
    walk: &Walk<'_, '_>,
    left: u32,
    soft: bool,
    model: ModelId,
    args: Values,
    path: &Path,
    here: &mut Left<'_>,
) -> Result<Sim, RestoreEnd>
    requires moment { IsMoment walk.now.time }
    requires args { FitsArgs walk.now.program.now model.0 args }
    ensures walks { WalksOn result (here.new.rows.now, here.new.room) (restored (system walk.now.program.now) (script walk.now.program.now) walk.now.version walk.now.time left soft model args path.now (here.old.rows.now, here.old.room)) }
    ensures fits { IfOk result (FitsTree walk.now.program.now) }
    ensures model { IfOk result (λ tree. model_of tree ≡ model) }
{
    if left == 0 {
        return Err(misfit(walk.alloc, path));
    }
    if is_network(walk.program, model) {
        restored_net(walk, left - 1, soft, model, args, path, here)
    } else {
        restored_atomic(walk, left, soft, model, args, path, here)
    }
}

/// A network: its own row, that of its executive, and what stands behind them.
#[cycle(restoring)]
fn restored_net(
    walk: &Walk<'_, '_>,
    left: u32,
    soft: bool,
    model: ModelId,
    args: Values,
    path: &Path,
    here: &mut Left<'_>,
) -> Result<Sim, RestoreEnd>
    requires moment { IsMoment walk.now.time }
    requires left { left < 2 ^ 32 - 1 }
    requires network { (system walk.now.program.now).is_network model ≡ true }
    requires args { FitsArgs walk.now.program.now model.0 args }
    ensures walks { WalksOn result (here.new.rows.now, here.new.room) (restored_net (system walk.now.program.now) (script walk.now.program.now) walk.now.version walk.now.time left (restored (system walk.now.program.now) (script walk.now.program.now) walk.now.version walk.now.time left) soft model args path.now (here.old.rows.now, here.old.room)) }
    ensures fits { IfOk result (FitsTree walk.now.program.now) }
    ensures model { IfOk result (λ tree. model_of tree ≡ model) }
{
    let own = took_net(walk, left + 1, soft, model, args, path, here)?;
    let boss = restored_boss(walk, left, model, &own, path, here)?;
    with_boss(walk, left, model, own, path, boss, here)
}

/// A network whose executive is restored: the components of its structure.
#[cycle(restoring)]
fn with_boss(
    walk: &Walk<'_, '_>,
    left: u32,
    model: ModelId,
    args: Values,
    path: &Path,
    boss: Leaf,
    here: &mut Left<'_>,
) -> Result<Sim, RestoreEnd>
    requires moment { IsMoment walk.now.time }
    requires network { (system walk.now.program.now).is_network model ≡ true }
    requires args { FitsArgs walk.now.program.now model.0 args }
    requires boss { FitsOwn walk.now.program.now model true args boss }
    ensures walks { WalksOn result (here.new.rows.now, here.new.room) (with_boss (system walk.now.program.now) (script walk.now.program.now) walk.now.version walk.now.time (restored (system walk.now.program.now) (script walk.now.program.now) walk.now.version walk.now.time left) model args path.now (boss, (here.old.rows.now, here.old.room))) }
    ensures fits { IfOk result (FitsTree walk.now.program.now) }
    ensures model { IfOk result (λ tree. model_of tree ≡ model) }
{
    let Plan { entries, links } = planned(walk, model, &args, &boss, path)?;
    let kids = restored_kids(walk, left, entries, path, here)?;
    let net = net_of(walk.alloc, model, args, boss, kids, links)?;
    Ok(Sim::Net(net))
}

/// The components of a structure, one after another.
#[cycle(restoring)]
fn restored_kids(
    walk: &Walk<'_, '_>,
    left: u32,
    entries: Seq<Entry>,
    path: &Path,
    here: &mut Left<'_>,
) -> Result<Seq<Kid>, RestoreEnd>
    requires moment { IsMoment walk.now.time }
    requires entries { AllByRecursion (FitsEntry walk.now.program.now) entries }
    ensures walks { WalksOn result (here.new.rows.now, here.new.room) (restored_kids (system walk.now.program.now) (script walk.now.program.now) walk.now.version walk.now.time (restored (system walk.now.program.now) (script walk.now.program.now) walk.now.version walk.now.time left) entries path.now (here.old.rows.now, here.old.room) []) }
    ensures fits { IfOk result (AllByRecursion (FitsKid walk.now.program.now)) }
    ensures roles { IfOk result (λ kids. roles (map entry_of kids) ≡ roles entries) }
{
    let mut done = Seq::new(walk.alloc);
    for entry in entries.into_vec() {
        done.push(restored_kid(walk, left, entry, path, here)?)?;
    }
    Ok(done)
}

/// The component that an entry of a structure wants.
#[cycle(restoring)]
fn restored_kid(
    walk: &Walk<'_, '_>,
    left: u32,
    entry: Entry,
    path: &Path,
    here: &mut Left<'_>,
) -> Result<Kid, RestoreEnd>
    requires moment { IsMoment walk.now.time }
    requires entry { FitsEntry walk.now.program.now entry }
    ensures walks { WalksOn result (here.new.rows.now, here.new.room) (restored_kid (restored (system walk.now.program.now) (script walk.now.program.now) walk.now.version walk.now.time left) entry path.now (here.old.rows.now, here.old.room)) }
    ensures fits { IfOk result (FitsKid walk.now.program.now) }
    ensures role { IfOk result (λ kid. role (entry_of kid) ≡ role entry) }
{
    let path = below(walk.alloc, path, &entry.name)?;
    let Entry {
        name,
        model,
        args,
        soft,
    } = entry;
    let sim = restored(walk, left, soft, model, args, &path, here)?;
    Ok(Kid { name, sim })
}

/// The tree whose root is of the model that runs, with these arguments; so many names may stand behind
/// that of the root.
fn whole_tree(walk: &Walk<'_, '_>, left: u32, args: Values, rows: &[Row]) -> Result<Sim, RestoreEnd>
    requires moment { IsMoment walk.now.time }
    requires args { FitsArgs walk.now.program.now (top_number walk.now.program.now).0 args }
    requires locations { AllByRecursion (HasLocation walk.now.version) rows.now }
    ensures walks { Walks (λ tree. tree) result (whole_tree (system walk.now.program.now) (script walk.now.program.now) walk.now.version walk.now.time left (top_number walk.now.program.now) args rows.now) }
    ensures fits { IfOk result (FitsTree walk.now.program.now) }
{
    left_are_last();
    let root = Path::root(walk.alloc)?;
    let mut here = Left {
        rows,
        room: MOST_PARTS,
    };
    let model = walk.program.top_model();
    let tree = restored(walk, left, false, model, args, &root, &mut here)?;
    match here.rows.split_first() {
        None => Ok(tree),
        Some((row, _)) => Err(left_over(walk.alloc, walk.version, &row.location)),
    }
}

/// The tree that the rows of an image say, of this version and at this time: it is one of the program,
/// it stands, and the rows are its image. `DoesNotFit` comes exactly where there is no such tree, with
/// the first path in the order of the rows at which they do not fit; where a row is left over, with its
/// path in version 1, and with that of the root in version 2.
pub fn restored_tree(
    alloc: Global,
    program: &Program,
    version: Version,
    time: u64,
    rows: &[Row],
) -> Result<Sim, RestoreEnd>
    requires moment { IsMoment time }
    requires locations { AllByRecursion (HasLocation version) rows.now }
    ensures walks { Walks (λ tree. tree) result (tree_of (system program.now) (script program.now) version time rows.now) }
    ensures fits { IfOk result (FitsTree program.now) }
    ensures stands { IfOk result (RestoredRight (system program.now) (script program.now) version time rows.now) }
{
    program.right();
    scripts_are_exact();
    only_images_fit();
    let walk = Walk {
        alloc,
        program,
        version,
        time,
    };
    match top_args(alloc, program) {
        Ok(args) => whole_tree(&walk, DEEPEST, args, rows),
        Err(LeafEnd::Memory) => Err(RestoreEnd::Memory),
        Err(LeafEnd::Fault(_, _, _)) => Err(misfit_at_root(alloc)),
    }
}

/// The rows do not fit at the root.
fn misfit_at_root(alloc: Global) -> RestoreEnd
    ensures { Misses root result }
{
    match Path::root(alloc) {
        Ok(root) => RestoreEnd::DoesNotFit(root),
        Err(Memory) => RestoreEnd::Memory,
    }
}

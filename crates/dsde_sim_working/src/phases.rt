//! What the start and each turn begin with, in whatever order the parts move.

ghost use Rattle.std.specs.Prelude.{◌≡◌, ◌<◌, ◌^◌, length, IfOk};
ghost use Rattle.dsde_values.specs.Path.{root};
ghost use Rattle.dsde_language.specs.DeclaredModels.{top_number};
ghost use Rattle.dsde_sim_tree.specs.Told.{Comes, Tells, at};
ghost use Rattle.dsde_system.specs.Program.{system};
ghost use Rattle.dsde_system.specs.Fitting.{FitsArgs};
ghost use Rattle.dsde_sim_tree.specs.Tree.{model_of};
ghost use Rattle.dsde_sim_tree.specs.Output.{by_port, output};
ghost use Rattle.dsde_sim_tree.specs.Move.{ins_of};
ghost use Rattle.dsde_sim_tree.specs.Turn.{started_tree};
ghost use Rattle.dsde_sim_moving.specs.Fitting.{FitsGot, FitsTree};
ghost use Rattle.dsde_sim_working.specs.Working.{FitsItems, Stands, chosen_by};

use dsde_sim_moving::given::atomic::top_args;
use dsde_sim_moving::given::check_tables::narrow;
use dsde_sim_moving::given::program::Program;
use dsde_sim_moving::given::sim_telling::at;
use dsde_sim_moving::given::sound_structures::sent_fits;
use dsde_sim_moving::{by_port, ins_of, output, start};
use dsde_sim_tree::{DEEPEST, Event, MOST_PARTS, Sim, TurnEnd};
use dsde_values::{Item, Memory, Path, Seq, Values};
use std::alloc::Global;

/// The tree of the model that runs, which starts at time 0.
pub fn started(
    alloc: Global,
    program: &Program,
    args: Values,
    events: &mut Seq<Event>,
) -> Result<Sim, TurnEnd>
    requires { FitsArgs program.now (top_number program.now).0 args }
    ensures told { Tells (started_tree (system program.now) (top_number program.now) args) events.old events.new result }
    ensures stands { IfOk result (Stands program.now) }
    ensures model { IfOk result (λ tree. model_of tree ≡ top_number program.now) }
{
    let root = Path::root(alloc)?;
    let (tree, _room) = start(
        alloc,
        program,
        DEEPEST,
        program.top_model(),
        args,
        &root,
        0,
        MOST_PARTS,
        events,
    )?;
    Ok(tree)
}

/// What `top` comes to: the arguments of the model that runs.
pub fn chosen(alloc: Global, program: &Program) -> Result<Values, TurnEnd>
    ensures comes { Comes (at root (system program.now).top) (chosen_by (top_number program.now) result) }
    ensures fits { IfOk result (λ args. FitsArgs program.now (top_number program.now).0 args) }
{
    let root = Path::root(alloc)?;
    at(alloc, &root, top_args(alloc, program))
}

/// What the whole model sends at this time.
pub fn sent_by_root(
    alloc: Global,
    program: &Program,
    tree: &Sim,
    time: u64,
) -> Result<Seq<Values>, TurnEnd>
    requires { FitsTree program.now tree.now }
    ensures comes { Comes (output (system program.now) tree.now root time) result }
    ensures few { IfOk result (λ sent. length sent < 2 ^ 32) }
{
    let root = Path::root(alloc)?;
    output(alloc, program, tree, &root, time)
}

/// What these items bring to the whole model.
pub fn received(
    alloc: Global,
    program: &Program,
    tree: &Sim,
    items: &[Item],
) -> Result<Seq<Values>, Memory>
    requires tree { FitsTree program.now tree.now }
    requires items { FitsItems program.now (model_of tree.now).0 items.now }
    ensures value { IfOk result (λ got. got ≡ by_port (ins_of (system program.now) tree.now) items.now) }
    ensures fits { IfOk result (λ got. FitsGot program.now (model_of tree.now).0 got) }
{
    sent_fits();
    let ports = narrow(ins_of(program, tree))?;
    by_port(alloc, ports, items)
}

//! Networks: their structures, and their simulators.

ghost use Rattle.std.specs.Prelude.{◌≡◌, true, IfOk};
ghost use Rattle.dsde_executive.specs.Structure.{IsPlan, in_structure};
ghost use Rattle.dsde_sim_tree.specs.Told.{Comes};
ghost use Rattle.dsde_executive.specs.given.system.Program.{system};
ghost use Rattle.dsde_executive.specs.given.system.Fitting.{FitsArgs, FitsLeaf};
ghost use Rattle.dsde_sim_tree.specs.Start.{net_of, structure_of};
ghost use Rattle.dsde_sim_starting.specs.Starting.{FitsWhereItsPartsDo, IsNet};

use dsde_executive::given::program::Program;
use dsde_executive::structure;
use dsde_faults::{EvalEnd, LeafEnd, Site};
use dsde_language::ModelId;
use dsde_lists::Boxed;
use dsde_sim_telling::{at, boss_of};
use dsde_sim_tree::given::formalism::Leaf;
use dsde_sim_tree::given::structure::{Link, Plan};
use dsde_sim_tree::{Kid, Net, TurnEnd};
use dsde_values::{Memory, Path, Seq, Values};
use std::alloc::Global;

/// The structure that goes with the state of the executive of the network at a path.
pub fn structure_of(
    alloc: Global,
    program: &Program,
    model: ModelId,
    args: &Values,
    boss: &Leaf,
    path: &Path,
) -> Result<Plan, TurnEnd>
    requires network { (system program.now).is_network model ≡ true }
    requires args { FitsArgs program.now model.0 args.now }
    requires boss { FitsLeaf program.now boss.now }
    requires boss_is { boss.now.model ≡ model }
    ensures comes { Comes (structure_of (system program.now) model args.now boss.now path.now) result }
    ensures fits { IfOk result (λ plan. IsPlan program.now model.0 plan) }
{
    let path = boss_of(alloc, path)?;
    at(
        alloc,
        &path,
        in_structure(structure(alloc, program, model, args, &boss.state)),
    )
}

/// What a structure came to, as its network has it.
fn in_structure(outcome: Result<Plan, EvalEnd>) -> Result<Plan, LeafEnd>
    ensures { result ≡ in_structure outcome }
{
    match outcome {
        Ok(plan) => Ok(plan),
        Err(EvalEnd::Fault(kind, at)) => Err(LeafEnd::Fault(Site::Structure, kind, at)),
        Err(EvalEnd::Memory) => Err(LeafEnd::Memory),
    }
}

/// The simulator of a network with these parts.
pub fn net_of(
    alloc: Global,
    model: ModelId,
    args: Values,
    boss: Leaf,
    kids: Seq<Kid>,
    links: Seq<Link>,
) -> Result<Boxed<Net>, Memory>
    ensures value { IfOk result (λ net. net ≡ net_of model args boss kids links) }
    ensures fits { IfOk result (λ net. FitsWhereItsPartsDo model args boss kids links net) }
    ensures is { IfOk result (λ net. IsNet model args net) }
{
    Boxed::new(
        alloc,
        Net {
            model,
            args,
            boss,
            kids,
            links,
        },
    )
}

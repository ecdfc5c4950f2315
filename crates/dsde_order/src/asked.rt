//! What the links of a network carry from, where all have answered.

ghost use Rattle.std.specs.Prelude.{◌≡◌, map, Ok, IfOk};
ghost use Rattle.dsde_sim_moving.specs.given.system.Program.{system};
ghost use Rattle.dsde_sim_tree.specs.declared.sim.Sim.TheVariants as sim;
ghost use Rattle.dsde_sim_tree.specs.declared.sim.Sim.TheViews.{out-Net};
ghost use Rattle.dsde_sim_tree.specs.Output.{kid_output, sources_of};
ghost use Rattle.dsde_sim_moving.specs.Fitting.{FitsGot, FitsNet};
ghost use Rattle.dsde_sim_moving.specs.Moving.{IsAsked};
ghost use Rattle.dsde_order.specs.Walking.{Answers};

use dsde_sim_moving::given::program::Program;
use dsde_sim_moving::sources_in;
use dsde_sim_tree::{Net, TurnEnd};
use dsde_structure::Sources;
use dsde_values::{Memory, Path, Seq, Values};
use std::alloc::Global;

/// What the links of a network carry from that answers the output message: asked again, its parts
/// have no fault.
pub(crate) fn sources_again(
    alloc: Global,
    program: &Program,
    net: &Net,
    path: &Path,
    time: u64,
    got: Seq<Values>,
) -> Result<Sources, Memory>
    requires fits { FitsNet program.now net.now }
    requires got { FitsGot program.now (out-Net net.now).model.0 got }
    requires answers { Answers (system program.now) (sim.Net net.now) path.now time }
    ensures is { IfOk result (λ sources. sources_of (system program.now) (map (kid_output (system program.now)) (out-Net net.now).kids) (out-Net net.now).boss path.now time got ≡ Ok sources) }
    ensures asked { IfOk result (IsAsked program.now net.now) }
{
    match sources_in(alloc, program, net, path, time, got) {
        Ok(sources) => Ok(sources),
        Err(TurnEnd::Memory) => Err(Memory),
        Err(TurnEnd::Fault { .. }) => unreachable!(),
    }
}

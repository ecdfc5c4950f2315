//! What comes to the parts of a network that moves.

ghost use Rattle.std.specs.Prelude.{◌≡◌, ◌<◌, ◌^◌, length, map, IfOk};
ghost use Rattle.std.specs.List.{AllByRecursion};
ghost use Rattle.dsde_sim_changing.specs.given.sim_gathering.Boxes.{box_of};
ghost use Rattle.dsde_sim_tree.specs.given.structure.plan_Part_TheVariants as part;
ghost use Rattle.dsde_sim_tree.specs.given.structure.Gather.{gathered};
ghost use Rattle.dsde_sim_tree.specs.given.formalism.Leaf.{component_of};
ghost use Rattle.dsde_sim_tree.specs.Told.{Comes};
ghost use Rattle.dsde_sim_changing.specs.given.system.Program.{system};
ghost use Rattle.dsde_sim_changing.specs.given.system.Fitting.{FitsInputs};
ghost use Rattle.dsde_sim_tree.specs.declared.sim.Sim.TheViews.{out-Net};
ghost use Rattle.dsde_sim_tree.specs.Output.{kid_output, sources_of};
ghost use Rattle.dsde_sim_changing.specs.given.sim_starting.Fitting.{FitsGot, FitsNet};
ghost use Rattle.dsde_sim_moving.specs.Moving.{AreFew, AreGot, IsAsked};

use dsde_sim_changing::given::atomic::ports_in;
use dsde_sim_changing::given::check_tables::narrow;
use dsde_sim_changing::given::program::Program;
use dsde_sim_changing::given::sim_gathering::{Inboxes, inboxes_of};
use dsde_sim_changing::given::sim_starting::sources_of;
use dsde_sim_changing::given::sound_structures::{gathered_fits, reach_covers};
use dsde_sim_tree::given::structure::Sources;
use dsde_sim_tree::{Net, TurnEnd};
use dsde_values::{Memory, Path, Seq, Values};
use std::alloc::Global;

/// What the links of a network carry from, which has received these values.
pub fn sources_in(
    alloc: Global,
    program: &Program,
    net: &Net,
    path: &Path,
    time: u64,
    got: Seq<Values>,
) -> Result<Sources, TurnEnd>
    requires fits { FitsNet program.now net.now }
    requires got { FitsGot program.now (out-Net net.now).model.0 got }
    ensures comes { Comes (sources_of (system program.now) (map (kid_output (system program.now)) (out-Net net.now).kids) (out-Net net.now).boss path.now time got) result }
    ensures asked { IfOk result (IsAsked program.now net.now) }
{
    sources_of(
        alloc,
        program,
        net.kids.as_slice(),
        &net.boss,
        path,
        time,
        got,
    )
}

/// No component gets values at more ports than 32 bits count.
fn few(gots: &[Seq<Values>]) -> Result<(), Memory>
    ensures { IfOk result (λ all. AllByRecursion AreFew gots.now) }
{
    for got in gots {
        narrow(got.len())?;
    }
    Ok(())
}

/// What comes to the executive of a network and to its components, before any of them moves.
pub fn boxes_in(
    alloc: Global,
    program: &Program,
    net: &Net,
    sources: &Sources,
) -> Result<Inboxes, Memory>
    requires { IsAsked program.now net.now sources.now }
    ensures boss { IfOk result (λ got. got.boss ≡ gathered (system program.now).translate (out-Net net.now).links sources.now part.Boss (component_of (system program.now) (out-Net net.now).boss).ins) }
    ensures kids { IfOk result (λ got. got.kids ≡ map (box_of (system program.now) (out-Net net.now).links sources.now) (out-Net net.now).kids) }
    ensures boss_fits { IfOk result (λ got. FitsInputs program.now (out-Net net.now).model.0 got.boss) }
    ensures boss_few { IfOk result (λ got. length got.boss < 2 ^ 32) }
    ensures kids_fit { IfOk result (λ got. AreGot program.now (out-Net net.now).kids got.kids) }
{
    gathered_fits();
    reach_covers();
    program.right();
    let boss_ins = narrow(ports_in(program, net.boss.model))?;
    let got = inboxes_of(
        alloc,
        program,
        net.links.as_slice(),
        sources,
        boss_ins,
        net.kids.as_slice(),
    )?;
    few(got.kids.as_slice())?;
    Ok(got)
}

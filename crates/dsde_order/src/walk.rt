//! The walk through the parts of a tree.

ghost use Rattle.std.specs.Prelude.{◌≡◌, ◌++◌, OnOk};
ghost use Rattle.std.specs.List.{AllByRecursion};
ghost use Rattle.dsde_sim_moving.specs.given.system.Program.{system};
ghost use Rattle.dsde_sim_tree.specs.Tree.{model_of};
ghost use Rattle.dsde_sim_tree.specs.declared.sim.Sim.TheVariants as sim;
ghost use Rattle.dsde_sim_moving.specs.Fitting.{FitsGot, FitsTree};
ghost use Rattle.dsde_sim_moving.specs.Moving.{AreGot, FitsInside};
ghost use Rattle.dsde_sim_movers.specs.Movers.{movers};
ghost use Rattle.dsde_sim_movers.specs.Names.{IsNamed};
ghost use Rattle.dsde_sim_movers.specs.Walk.{called_one};
ghost use Rattle.dsde_order.specs.Walking.{Answers, AreNamed, FitsDelivery, KidsAnswer, movers_with};

use crate::Mover;
use crate::asked::sources_again;
use dsde_sim_movers::movers_are_walked;
use dsde_sim_moving::given::program::Program;
use dsde_sim_moving::given::sim_telling::{below, boss_of};
use dsde_sim_moving::{boxes_in, kind_of};
use dsde_sim_tree::given::formalism::Leaf;
use dsde_sim_tree::{Kid, Net, Sim};
use dsde_values::{Memory, Path, Seq, Values};
use std::alloc::Global;

/// Adds a component or an executive to those that move, where it is due or something comes to it.
fn add_called(
    leaf: &Leaf,
    path: Path,
    time: u64,
    got: Seq<Values>,
    movers: &mut Seq<Mover>,
) -> Result<(), Memory>
    ensures { OnOk result (movers.new ≡ movers.old ++ called_one leaf.now path time got) }
{
    match kind_of(leaf, time, got.as_slice()) {
        Some(_) => movers.push(Mover {
            path,
            model: leaf.model,
            ports: got,
        }),
        None => Ok(()),
    }
}

/// Adds those that move of what stands at a path, which answers the output message: in path order, each
/// with what comes to it. Where memory runs out some of them are added.
#[cycle(walking)]
pub fn movers_in(
    alloc: Global,
    program: &Program,
    sim: &Sim,
    path: Path,
    time: u64,
    got: Seq<Values>,
    found: &mut Seq<Mover>,
) -> Result<(), Memory>
    requires named { IsNamed sim.now }
    requires fits { FitsTree program.now sim.now }
    requires got { FitsGot program.now (model_of sim.now).0 got }
    requires answers { Answers (system program.now) sim.now path time }
    requires before { AllByRecursion (FitsDelivery program.now) found.old }
    ensures movers { OnOk result (found.new ≡ found.old ++ movers (system program.now) sim.now path time got) }
    ensures fit { OnOk result (AllByRecursion (FitsDelivery program.now) found.new) }
{
    movers_are_walked();
    match sim {
        Sim::Leaf(leaf) => add_called(leaf, path, time, got, found),
        Sim::Net(net) => net_movers_in(alloc, program, net.get(), &path, time, got, found),
    }
}

/// Those of a network: its components' in the order of their names, and then its executive.
#[cycle(walking)]
fn net_movers_in(
    alloc: Global,
    program: &Program,
    net: &Net,
    path: &Path,
    time: u64,
    got: Seq<Values>,
    found: &mut Seq<Mover>,
) -> Result<(), Memory>
    requires named { IsNamed (sim.Net net.now) }
    requires fits { FitsTree program.now (sim.Net net.now) }
    requires got { FitsGot program.now (model_of (sim.Net net.now)).0 got }
    requires answers { Answers (system program.now) (sim.Net net.now) path.now time }
    requires before { AllByRecursion (FitsDelivery program.now) found.old }
    ensures movers { OnOk result (found.new ≡ found.old ++ movers (system program.now) (sim.Net net.now) path.now time got) }
    ensures fit { OnOk result (AllByRecursion (FitsDelivery program.now) found.new) }
{
    movers_are_walked();
    let sources = sources_again(alloc, program, net, path, time, got)?;
    let got = boxes_in(alloc, program, net, &sources)?;
    kids_movers_in(
        alloc,
        program,
        net.kids.as_slice(),
        got.kids,
        path,
        time,
        found,
    )?;
    let boss_path = boss_of(alloc, path)?;
    add_called(&net.boss, boss_path, time, got.boss, found)
}

/// Those of the components of a network, each of which gets these values.
#[cycle(walking)]
fn kids_movers_in(
    alloc: Global,
    program: &Program,
    kids: &[Kid],
    gots: Seq<Seq<Values>>,
    path: &Path,
    time: u64,
    found: &mut Seq<Mover>,
) -> Result<(), Memory>
    requires named { AreNamed kids.now }
    requires fits { AllByRecursion (FitsInside program.now) kids.now }
    requires gots { AreGot program.now kids.now gots }
    requires answers { KidsAnswer (system program.now) kids.now path.now time }
    requires before { AllByRecursion (FitsDelivery program.now) found.old }
    ensures movers { OnOk result (found.new ≡ found.old ++ movers_with (system program.now) kids.now gots path.now time) }
    ensures fit { OnOk result (AllByRecursion (FitsDelivery program.now) found.new) }
{
    for (kid, got) in kids.iter().zip(gots.into_vec()) {
        let kid_path = below(alloc, path, &kid.name)?;
        movers_in(alloc, program, &kid.sim, kid_path, time, got, found)?;
    }
    Ok(())
}

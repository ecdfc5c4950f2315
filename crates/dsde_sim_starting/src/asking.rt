//! The output message: what the parts of a tree send.

ghost use Rattle.std.specs.Prelude.{◌≡◌, ◌<◌, ◌^◌, [], length, map, IfOk};
ghost use Rattle.std.specs.List.{AllByRecursion};
ghost use Rattle.dsde_sim_tree.specs.Told.{at, to_boss, Comes};
ghost use Rattle.dsde_executive.specs.given.system.Program.{system};
ghost use Rattle.dsde_executive.specs.given.system.Fitting.{FitsLeaf};
ghost use Rattle.dsde_sim_tree.specs.given.structure.plan_Part_TheVariants as part;
ghost use Rattle.dsde_sim_tree.specs.given.structure.Gather.{gathered};
ghost use Rattle.dsde_sim_tree.specs.declared.sim.Sim.TheVariants as sim;
ghost use Rattle.dsde_sim_tree.specs.declared.sim.Sim.TheViews.{out-Kid, out-Net};
ghost use Rattle.dsde_sim_tree.specs.Tree.{model_of};
ghost use Rattle.dsde_sim_tree.specs.Output.{output, output_of_net, kid_output, asked, sources_of, sent};
ghost use Rattle.dsde_sim_starting.specs.Fitting.{FitsTree, FitsKid, FitsNet, FitsAtomic, FitsSent, FitsBodySent};
ghost use Rattle.dsde_sim_starting.specs.Asking.{AreAsked, AreSources};

use crate::ports::sent;
use dsde_executive::given::check_tables::narrow;
use dsde_executive::given::program::Program;
use dsde_executive::given::sound_structures::{gathered_fits, reach_covers};
use dsde_sim_gathering::given::atomic::network_out;
use dsde_sim_gathering::sent_by_net;
use dsde_sim_telling::{at, below, boss_of};
use dsde_sim_tree::given::formalism::Leaf;
use dsde_sim_tree::given::structure::{Given, Sources};
use dsde_sim_tree::{Kid, Net, Sim, TurnEnd};
use dsde_values::{Memory, Path, Seq, Values};
use std::alloc::Global;

/// What fits a program where a component of a network does: the part under its name. A call that does
/// nothing.
fn kid_fits(_program: &Program, _kid: &Kid)
    requires { FitsKid _program.now _kid.now }
    ensures { FitsTree _program.now (out-Kid _kid.now).sim }
{}

/// What fits a program where a part does that is this network. A call that does nothing.
fn net_fits(_program: &Program, _net: &Net)
    requires { FitsTree _program.now (sim.Net _net.now) }
    ensures { FitsNet _program.now _net.now }
{}

/// What fits a program where a network does: its components, and its executive. A call that does nothing.
fn parts_fit(_program: &Program, _net: &Net)
    requires { FitsNet _program.now _net.now }
    ensures kids { AllByRecursion (FitsKid _program.now) (out-Net _net.now).kids }
    ensures boss { FitsLeaf _program.now (out-Net _net.now).boss }
{}

/// What a part at a path sends at a time, port by port.
#[cycle(output)]
pub fn output(
    alloc: Global,
    program: &Program,
    sim: &Sim,
    path: &Path,
    time: u64,
) -> Result<Seq<Values>, TurnEnd>
    requires { FitsTree program.now sim.now }
    ensures comes { Comes (output (system program.now) sim.now path.now time) result }
    ensures fits { IfOk result (λ sent. FitsSent program.now (model_of sim.now).0 sent) }
    ensures few { IfOk result (λ sent. length sent < 2 ^ 32) }
{
    match sim {
        Sim::Leaf(leaf) => leaf_output(alloc, program, leaf, path, time),
        Sim::Net(net) => {
            net_fits(program, net.get());
            net_output(alloc, program, net.get(), path, time)
        }
    }
}

/// What an atomic component sends.
fn leaf_output(
    alloc: Global,
    program: &Program,
    leaf: &Leaf,
    path: &Path,
    time: u64,
) -> Result<Seq<Values>, TurnEnd>
    requires { FitsAtomic program.now leaf.now }
    ensures comes { Comes (at path.now (sent (system program.now) leaf.now time)) result }
    ensures fits { IfOk result (λ sent. FitsSent program.now leaf.now.model.0 sent) }
    ensures few { IfOk result (λ sent. length sent < 2 ^ 32) }
{
    at(alloc, path, sent(alloc, program, leaf, time))
}

/// What a network sends: what its links carry to its out ports.
#[cycle(output)]
fn net_output(
    alloc: Global,
    program: &Program,
    net: &Net,
    path: &Path,
    time: u64,
) -> Result<Seq<Values>, TurnEnd>
    requires { FitsNet program.now net.now }
    ensures comes { Comes (output_of_net (system program.now) net.now path.now time) result }
    ensures fits { IfOk result (λ sent. FitsSent program.now (out-Net net.now).model.0 sent) }
    ensures few { IfOk result (λ sent. length sent < 2 ^ 32) }
{
    parts_fit(program, net);
    let sources = sources_of(
        alloc,
        program,
        net.kids.as_slice(),
        &net.boss,
        path,
        time,
        Seq::new(alloc),
    )?;
    Ok(net_sends(alloc, program, net, &sources)?)
}

/// What a network sends whose links carry from these.
fn net_sends(
    alloc: Global,
    program: &Program,
    net: &Net,
    sources: &Sources,
) -> Result<Seq<Values>, Memory>
    requires net { FitsNet program.now net.now }
    requires sources { AreSources program.now (out-Net net.now).kids (out-Net net.now).boss [] sources.now }
    ensures value { IfOk result (λ sent. sent ≡ gathered (system program.now).translate (out-Net net.now).links sources.now part.Net ((system program.now).network (out-Net net.now).model (out-Net net.now).args).outs) }
    ensures fits { IfOk result (λ sent. FitsSent program.now (out-Net net.now).model.0 sent) }
    ensures few { IfOk result (λ sent. length sent < 2 ^ 32) }
{
    gathered_fits();
    reach_covers();
    program.right();
    let ports = narrow(network_out(program, net.model))?;
    let sent = sent_by_ports(alloc, program, net, sources, ports)?;
    Ok(sent)
}

/// What the links of a network carry to its out ports, of which there are so many.
fn sent_by_ports(
    alloc: Global,
    program: &Program,
    net: &Net,
    sources: &Sources,
    ports: u32,
) -> Result<Seq<Values>, Memory>
    requires net { FitsNet program.now net.now }
    requires sources { AreSources program.now (out-Net net.now).kids (out-Net net.now).boss [] sources.now }
    ensures value { IfOk result (λ sent. sent ≡ gathered (system program.now).translate (out-Net net.now).links sources.now part.Net ports) }
    ensures few { IfOk result (λ sent. length sent < 2 ^ 32) }
{
    let sent = sent_by_net(alloc, program, net.links.as_slice(), sources, ports)?;
    Ok(sent)
}

/// What the links of a network carry from: its components are asked in the order of their names, and
/// then its executive.
#[cycle(output)]
pub fn sources_of(
    alloc: Global,
    program: &Program,
    kids: &[Kid],
    boss: &Leaf,
    path: &Path,
    time: u64,
    got: Seq<Values>,
) -> Result<Sources, TurnEnd>
    requires kids { AllByRecursion (FitsKid program.now) kids.now }
    requires boss { FitsLeaf program.now boss.now }
    ensures comes { Comes (sources_of (system program.now) (map (kid_output (system program.now)) kids.now) boss.now path.now time got) result }
    ensures fits { IfOk result (λ sources. AreSources program.now kids.now boss.now got sources) }
{
    let given = asked(alloc, program, kids, path, time)?;
    let own = boss_output(alloc, program, boss, path, time)?;
    Ok(Sources {
        net: got,
        boss: own,
        kids: given,
    })
}

/// What the executive of the network at a path sends.
fn boss_output(
    alloc: Global,
    program: &Program,
    boss: &Leaf,
    path: &Path,
    time: u64,
) -> Result<Seq<Values>, TurnEnd>
    requires { FitsLeaf program.now boss.now }
    ensures comes { Comes (at (to_boss path.now) (sent (system program.now) boss.now time)) result }
    ensures fits { IfOk result (λ sent. FitsBodySent program.now boss.now.model.0 sent) }
{
    let path = boss_of(alloc, path)?;
    at(alloc, &path, sent(alloc, program, boss, time))
}

/// What components send, one after another.
#[cycle(output)]
fn asked(
    alloc: Global,
    program: &Program,
    kids: &[Kid],
    path: &Path,
    time: u64,
) -> Result<Seq<Given>, TurnEnd>
    requires { AllByRecursion (FitsKid program.now) kids.now }
    ensures comes { Comes (asked (map (kid_output (system program.now)) kids.now) path.now time []) result }
    ensures fits { IfOk result (λ given. AreAsked program.now kids.now given) }
{
    let mut done = Seq::new(alloc);
    for kid in kids {
        kid_fits(program, kid);
        let path = below(alloc, path, &kid.name)?;
        let ports = output(alloc, program, &kid.sim, &path, time)?;
        done.push(Given {
            name: kid.name.copy(alloc)?,
            ports,
        })?;
    }
    Ok(done)
}

//! The ports of parts.

ghost use Rattle.std.specs.Prelude.{◌≡◌, IfOk};
ghost use Rattle.dsde_sound_structures.specs.given.system.Program.{system};
ghost use Rattle.dsde_sim_tree.specs.Move.{ins_of};
ghost use Rattle.dsde_sim_gathering.specs.Boxes.{empty_ports};
ghost use Rattle.dsde_sim_gathering.specs.Passing.{IsOfModel};

use dsde_atomic::given::eval::Program;
use dsde_atomic::{network_in, ports_in};
use dsde_sim_tree::{Net, Sim};
use dsde_values::{Memory, Seq, Values};
use std::alloc::Global;

/// How many in ports a part has.
pub fn ins_of(program: &Program, sim: &Sim) -> usize
    requires { IsOfModel program.now sim.now }
    ensures { ins_of (system program.now) sim.now ≡ result }
{
    match sim {
        Sim::Leaf(leaf) => ports_in(program, leaf.model),
        Sim::Net(net) => network_in(program, net.get().model),
    }
}

/// No values yet at each of so many ports.
pub(crate) fn empty_ports(alloc: Global, ports: usize) -> Result<Seq<Values>, Memory>
    ensures { IfOk result (λ got. got ≡ empty_ports ports) }
{
    let mut got = Seq::new(alloc);
    for _port in 0..ports {
        got.push(Seq::new(alloc))?;
    }
    Ok(got)
}

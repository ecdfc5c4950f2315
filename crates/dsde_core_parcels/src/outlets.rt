//! What comes out of ports.

ghost use Rattle.std.specs.Prelude.{◌≡◌, ◌<◌, ◌≤◌, ◌+◌, ◌*◌, ◌^◌, ◌++◌, length, map, IfOk, OnOk};
ghost use Rattle.std.specs.List.{AllByRecursion, flat_map};
ghost use Rattle.dsde_core_moves.specs.given.system.Program.{system};
ghost use Rattle.dsde_sim_tree.specs.Told.{Comes};
ghost use Rattle.dsde_routes_pushing.specs.given.sim_movers.Asking.{ask_each};
ghost use Rattle.dsde_core_moves.specs.given.core_flat.Due.{AreDue, asked};
ghost use Rattle.dsde_core_parcels.specs.Outlets.{outlet_with, outlets_by, outlets_from, turn_outlets};
ghost use Rattle.dsde_core_parcels.specs.Traffic.{AllSend};
ghost use Rattle.dsde_core_parcels.specs.Asking.{AllFit, IsNextAt, SendsAt, ended};

use crate::Outlet;
use crate::sending::sent_by;
use dsde_bank::Handle;
use dsde_base::Steps;
use dsde_core_moves::given::core_flat::{Due, Spot};
use dsde_core_moves::given::grove::Grove;
use dsde_core_moves::given::program::Program;
use dsde_core_moves::given::sound_structures::{reach_covers, sent_fits};
use dsde_sim_tree::TurnEnd;
use dsde_values::{Memory, Seq, Values};
use std::alloc::Global;
use std::sync::ledger::Ledger;

/// What comes out of a port goes behind outlets, if it is anything.
fn put_outlet(
    outlets: &mut Seq<Outlet>,
    source: Handle,
    port: u32,
    values: Values,
) -> Result<(), Memory>
    ensures { OnOk result (outlets.new ≡ outlets.old ++ outlet_with source port values) }
{
    if values.is_empty() {
        return Ok(());
    }
    outlets.push(Outlet {
        source,
        port,
        values,
    })?;
    Ok(())
}

/// What comes out of the ports of a source goes behind outlets.
fn put_outlets(outlets: &mut Seq<Outlet>, source: Handle, ports: Seq<Values>) -> Result<(), Memory>
    requires { length ports < 2 ^ 32 }
    ensures { OnOk result (outlets.new ≡ outlets.old ++ outlets_from source 0 ports) }
{
    let mut port: u32 = 0;
    for values in ports.into_vec() {
        put_outlet(outlets, source, port, values)?;
        port += 1;
    }
    Ok(())
}

/// What those who are due send, asked one after another. A fault is the first one that comes.
fn due_outlets<L: Ledger>(
    alloc: Global,
    program: &Program,
    grove: &Grove<Spot>,
    due: &[Due],
    time: u64,
    looks: &mut Steps<L>,
) -> Result<Seq<Outlet>, TurnEnd>
    requires fit { AllFit program.now grove.now }
    requires next { AllByRecursion (IsNextAt grove.now time) due.now }
    ensures comes { Comes (ask_each (system program.now) time (map (asked grove.now) due.now)) (ended result) }
    ensures outlets { IfOk result (λ outlets. outlets ≡ flat_map (outlets_by (system program.now) time grove.now) due.now) }
    ensures send { OnOk result (AllByRecursion (SendsAt program.now time grove.now) due.now) }
    ensures ticks { OnOk result (looks.new ≤ looks.old + 2 * length due.now) }
{
    let mut outlets = Seq::new(alloc);
    let mut rest = due;
    while let Some((one, later)) = rest.split_first() {
        let ports = sent_by(alloc, program, grove, one, time, looks)?;
        put_outlets(&mut outlets, one.handle, ports)?;
        rest = later;
    }
    Ok(outlets)
}

/// What comes out of the ports of those who are due at a turn's time, and what came to the root, as what
/// comes out of it inside. They are asked one after another in path order, and a fault is the first one
/// that comes: that of the output message of the tree. After it, and after `Memory`, nothing is given.
/// Counts at most 2 looks for each who is due.
pub fn turn_outlets<L: Ledger>(
    alloc: Global,
    program: &Program,
    grove: &Grove<Spot>,
    top: Handle,
    due: &[Due],
    time: u64,
    got: Seq<Values>,
    looks: &mut Steps<L>,
) -> Result<Seq<Outlet>, TurnEnd>
    requires fit { AllFit program.now grove.now }
    requires due { AreDue grove.now time due.now }
    requires few { length got < 2 ^ 32 }
    ensures comes { Comes (ask_each (system program.now) time (map (asked grove.now) due.now)) (ended result) }
    ensures outlets { IfOk result (λ outlets. outlets ≡ turn_outlets (system program.now) time grove.now top got due.now) }
    ensures send { OnOk result (AllSend program.now time grove.now) }
    ensures ticks { OnOk result (looks.new ≤ looks.old + 2 * length due.now) }
{
    sent_fits();
    reach_covers();
    let mut outlets = due_outlets(alloc, program, grove, due, time, looks)?;
    put_outlets(&mut outlets, top, got)?;
    Ok(outlets)
}

//! What a component or an executive sends.

ghost use Rattle.std.specs.Prelude.{◌≡◌, ◌<◌, ◌≤◌, ◌+◌, ◌^◌, Ok, length, IfOk};
ghost use Rattle.dsde_sim_tree.specs.given.formalism.Leaf.{Gives, sent_at};
ghost use Rattle.dsde_core_moves.specs.given.system.Program.{system};
ghost use Rattle.dsde_core_moves.specs.given.system.Fitting.{FitsLeaf, FitsSends};
ghost use Rattle.dsde_core_moves.specs.given.grove.Grove.{value_of};
ghost use Rattle.dsde_sim_tree.specs.Told.{Comes, at};
ghost use Rattle.dsde_sim_tree.specs.Output.{sent};
ghost use Rattle.dsde_core_moves.specs.given.sim_starting.Fitting.{FitsBodySent};
ghost use Rattle.dsde_core_moves.specs.given.core_flat.Shown.{leaf_in};
ghost use Rattle.dsde_core_parcels.specs.Asking.{AllFit, IsNextAt};

use crate::items::into_ports;
use dsde_base::Steps;
use dsde_core_moves::given::atomic::{output_leaf, ports_out};
use dsde_core_moves::given::check_tables::narrow;
use dsde_core_moves::given::core_flat::{Due, Spot, leaf_at};
use dsde_core_moves::given::grove::Grove;
use dsde_core_moves::given::program::Program;
use dsde_core_moves::given::sim_starting::is_due;
use dsde_core_moves::given::sim_telling::at;
use dsde_core_moves::given::sound_structures::{reach_covers, sent_fits};
use dsde_faults::LeafEnd;
use dsde_sim_tree::TurnEnd;
use dsde_sim_tree::given::formalism::Leaf;
use dsde_values::{Item, Seq, Values};
use std::alloc::Global;
use std::sync::ledger::Ledger;

/// What is sent at this time: the output where it is due, else nothing.
pub fn sent_at(
    alloc: Global,
    program: &Program,
    leaf: &Leaf,
    time: u64,
) -> Result<Seq<Item>, LeafEnd>
    requires { FitsLeaf program.now leaf.now }
    ensures gives { Gives (sent_at (system program.now) leaf.now time) result }
    ensures fits { IfOk result (λ items. FitsSends program.now leaf.now.model.0 items) }
{
    if !is_due(leaf, time) {
        return Ok(Seq::new(alloc));
    }
    output_leaf(alloc, program, leaf)
}

/// What a component or an executive sends at this time, port by port.
pub fn sent(
    alloc: Global,
    program: &Program,
    leaf: &Leaf,
    time: u64,
) -> Result<Seq<Values>, LeafEnd>
    requires { FitsLeaf program.now leaf.now }
    ensures gives { Gives (sent (system program.now) leaf.now time) result }
    ensures fits { IfOk result (λ sent. FitsBodySent program.now leaf.now.model.0 sent) }
    ensures few { IfOk result (λ sent. length sent < 2 ^ 32) }
{
    sent_fits();
    reach_covers();
    let items = sent_at(alloc, program, leaf, time)?;
    let ports = narrow(ports_out(program, leaf.model))?;
    Ok(into_ports(alloc, ports, items)?)
}

/// What somebody who is due sends, port by port. A fault comes exactly where its output faults.
pub(crate) fn sent_by<L: Ledger>(
    alloc: Global,
    program: &Program,
    grove: &Grove<Spot>,
    due: &Due,
    time: u64,
    looks: &mut Steps<L>,
) -> Result<Seq<Values>, TurnEnd>
    requires fit { AllFit program.now grove.now }
    requires next { IsNextAt grove.now time due.now }
    ensures comes { Comes (at due.now.path (sent (system program.now) (leaf_in (value_of grove.now due.now.handle)) time)) result }
    ensures sent { IfOk result (λ ports. sent (system program.now) (leaf_in (value_of grove.now due.now.handle)) time ≡ Ok ports) }
    ensures fits { IfOk result (λ ports. FitsBodySent program.now (leaf_in (value_of grove.now due.now.handle)).model.0 ports) }
    ensures few { IfOk result (λ ports. length ports < 2 ^ 32) }
    ensures ticks { looks.new ≤ looks.old + 2 }
{
    let Some(leaf) = leaf_at(grove, due.handle, looks) else {
        unreachable!();
    };
    at(alloc, &due.path, sent(alloc, program, leaf, time))
}

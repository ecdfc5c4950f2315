//! Who moves in a turn where the whole model is an atomic component.

ghost use Rattle.std.specs.Prelude.{◌≡◌, ◌+◌, ◌<◌, ◌≤◌, ◌^◌, length, option_to_list, IfOk, IsNone, IsSome, List, Ok, OnOk, Some};
ghost use Rattle.dsde_values.specs.Path.{root};
ghost use Rattle.dsde_sim_working.specs.given.system.Fitting.{FitsLeaf};
ghost use Rattle.dsde_sim_working.specs.given.system.Program.{system};
ghost use Rattle.dsde_grove.specs.Grove.{value_of};
ghost use Rattle.dsde_sim_tree.specs.Told.{Comes, at};
ghost use Rattle.dsde_sim_tree.specs.Output.{by_port, output};
ghost use Rattle.dsde_sim_tree.specs.given.formalism.Leaf.{sent_at};
ghost use Rattle.dsde_sim_tree.specs.Tree.{model_of};
ghost use Rattle.dsde_sim_working.specs.Working.{FitsItems};
ghost use Rattle.dsde_core_parcels.specs.given.core_flat.spot_Spot_TheVariants as variant;
ghost use Rattle.dsde_core_parcels.specs.given.core_flat.Scheduled.{held_leaf};
ghost use Rattle.dsde_core_parcels.specs.given.core_flat.due_Due.{Due as ADue};
ghost use Rattle.dsde_core_parcels.specs.given.core_flat.Due.{AreDue};
ghost use Rattle.dsde_core_parcels.specs.given.core_moves.Flat.{tree_of, Stands};
ghost use Rattle.dsde_core_parcels.specs.given.core_moves.Movers.{list_of, ports_of, sent_of, AreMovers, Wait};
ghost use Rattle.dsde_core_outputs.specs.Alone.{one_called};
ghost use Rattle.dsde_core_outputs.specs.Rows.{HasRows};

use crate::alone_laws::lone_components_move;
use dsde_bank::Handle;
use dsde_base::Steps;
use dsde_core_parcels::given::atomic::ports_out;
use dsde_core_parcels::given::core_flat::leaf_at;
use dsde_core_parcels::given::core_moves::{Flat, Mover, Movers, Phase, Sent, kind_of};
use dsde_core_parcels::sent_at;
use dsde_sim_tree::TurnEnd;
use dsde_sim_tree::given::formalism::Leaf;
use dsde_sim_working::given::atomic::ports_in;
use dsde_sim_working::given::check_tables::narrow;
use dsde_sim_working::given::program::Program;
use dsde_sim_working::given::sim_starting::by_port;
use dsde_sim_working::given::sim_telling::at;
use dsde_values::{Item, Path, Seq, Values};
use std::alloc::Global;
use std::sync::ledger::Ledger;

/// The component under the root's handle. Counts at most 2 looks.
fn root_leaf<'a, L: Ledger>(flat: &'a Flat, looks: &mut Steps<L>) -> &'a Leaf
    requires { IsSome (held_leaf (value_of flat.now.grove flat.now.root)) }
    ensures held { value_of flat.now.grove flat.now.root ≡ Some (variant.Leaf result.now) }
    ensures ticks { looks.new ≤ looks.old + 2 }
{
    let Some(leaf) = leaf_at(&flat.grove, flat.root, looks) else {
        unreachable!();
    };
    leaf
}

/// What the component at a path sends at this time, in the order in which it is sent. A fault comes exactly where
/// its output faults.
fn sends(
    alloc: Global,
    program: &Program,
    leaf: &Leaf,
    path: &Path,
    time: u64,
) -> Result<Seq<Item>, TurnEnd>
    requires { FitsLeaf program.now leaf.now }
    ensures comes { Comes (at path.now (sent_at (system program.now) leaf.now time)) result }
    ensures sent { IfOk result (λ items. sent_at (system program.now) leaf.now time ≡ Ok items) }
{
    at(alloc, path, sent_at(alloc, program, leaf, time))
}

/// The component under a handle, if it is due or this came to it.
fn called(leaf: &Leaf, handle: Handle, path: Path, time: u64, got: Seq<Values>) -> Option<Mover>
    ensures { option_to_list result ≡ one_called leaf.now handle path time got }
{
    match kind_of(leaf, time, got.as_slice()) {
        Some(_) => Some(Mover {
            handle,
            path,
            model: leaf.model,
            got,
        }),
        None => None,
    }
}

/// What a turn begins with where a component sends these items by so many ports, and moves or does not.
fn phase_of(ports: u32, items: Seq<Item>, mover: Option<Mover>) -> Phase
    ensures sent { ports_of result.sent ≡ by_port ports items }
    ensures few { length (ports_of result.sent) < 2 ^ 32 }
    ensures movers { list_of result.movers ≡ option_to_list mover }
{
    Phase {
        sent: Sent::Items { ports, items },
        movers: Movers::One(mover),
    }
}

/// The output phase of a turn of an atomic component that is the whole model: what it sends, and who moves, which is
/// the component where it is due or the items bring something to it, with what it receives. A fault is that of its
/// output. `Memory` comes where there is none, and where it has more ports than 32 bits count. Counts at most 2 looks.
pub(crate) fn root_movers<L: Ledger>(
    alloc: Global,
    program: &Program,
    flat: &Flat,
    time: u64,
    items: &[Item],
    looks: &mut Steps<L>,
) -> Result<Phase, TurnEnd>
    requires component { IsNone flat.now.wiring }
    requires stands { Stands program.now flat.now }
    requires items { FitsItems program.now (model_of (tree_of flat.now)).0 items.now }
    ensures comes { Comes (output (system program.now) (tree_of flat.now) root time) (sent_of result) }
    ensures few { IfOk result (λ phase. length (ports_of phase.sent) < 2 ^ 32) }
    ensures movers { IfOk result (λ phase. AreMovers program.now flat.now time items.now (list_of phase.movers)) }
    ensures wait { (dues : List ADue) → AreDue flat.now.grove time dues → IfOk result (λ phase. Wait dues (list_of phase.movers)) }
    ensures many { (dues : List ADue) → AreDue flat.now.grove time dues → IfOk result (λ phase. length dues ≤ length (list_of phase.movers)) }
    ensures rows { (dues : List ADue) → AreDue flat.now.grove time dues → OnOk result (HasRows program.now flat.now time items.now 0) }
    ensures ticks { looks.new ≤ looks.old + 2 }
{
    lone_components_move();
    let leaf = root_leaf(flat, looks);
    let path = Path::root(alloc)?;
    let sent = sends(alloc, program, leaf, &path, time)?;
    let outs = narrow(ports_out(program, leaf.model))?;
    let ins = narrow(ports_in(program, leaf.model))?;
    let got = by_port(alloc, ins, items)?;
    let first = called(leaf, flat.root, path, time, got);
    Ok(phase_of(outs, sent, first))
}

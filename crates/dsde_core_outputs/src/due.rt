//! Those who are due.

ghost use Rattle.std.specs.Prelude.{◌≡◌, ◌+◌, ◌*◌, ◌≤◌, length, IfOk, IsSome, OnOk, Some};
ghost use Rattle.std.specs.List.{AllByRecursion};
ghost use Rattle.dsde_bank.specs.declared.handle.Handle.{Handle};
ghost use Rattle.dsde_sim_tree.specs.given.formalism.leaf_Leaf.{Leaf};
ghost use Rattle.dsde_grove.specs.Grove.{value_of};
ghost use Rattle.dsde_core_parcels.specs.given.core_flat.spot_Spot_TheVariants as variant;
ghost use Rattle.dsde_sim_working.specs.given.system.Fitting.{FitsLeaf};
ghost use Rattle.dsde_sim_working.specs.given.system.Program.{system};
ghost use Rattle.dsde_core_parcels.specs.given.core_flat.Scheduled.{held_leaf};
ghost use Rattle.dsde_core_parcels.specs.Brought.{Rise};
ghost use Rattle.dsde_core_parcels.specs.Calling.{due_movers, left_by, mover_with, IsLeafAt};

use crate::taking::take_gets;
use dsde_bank::Handle;
use dsde_base::Steps;
use dsde_core_parcels::given::core_flat::{Due, Spot, leaf_at};
use dsde_core_parcels::given::core_moves::Mover;
use dsde_core_parcels::{Get, Inbox, spread};
use dsde_grove::Grove;
use dsde_sim_working::given::atomic::ports_in;
use dsde_sim_working::given::program::Program;
use dsde_values::{Memory, Path, Seq};
use std::alloc::Global;
use std::sync::ledger::Ledger;

/// Who lives under a handle, to whom this comes.
fn mover_with<L: Ledger>(
    alloc: Global,
    program: &Program,
    grove: &Grove<Spot>,
    handle: Handle,
    path: Path,
    gets: Seq<Get>,
    looks: &mut Steps<L>,
) -> Result<Mover, Memory>
    requires fit { (handle : Handle) (leaf : Leaf) → value_of grove.now handle ≡ Some (variant.Leaf leaf) → FitsLeaf program.now leaf }
    requires live { IsSome (held_leaf (value_of grove.now handle)) }
    ensures mover { IfOk result (λ mover. mover ≡ mover_with (system program.now) grove.now handle path gets) }
    ensures ticks { looks.new ≤ looks.old + 2 }
{
    let Some(leaf) = leaf_at(grove, handle, looks) else {
        unreachable!();
    };
    let got = spread(alloc, ports_in(program, leaf.model), gets)?;
    Ok(Mover {
        handle,
        path,
        model: leaf.model,
        got,
    })
}

/// Those who are due, in their order, each with what comes to it: it is taken out of its inbox, which is
/// empty then. Counts at most 2 looks for each.
pub fn due_movers<L: Ledger>(
    alloc: Global,
    program: &Program,
    grove: &Grove<Spot>,
    due: Vec<Due>,
    inboxes: &mut Seq<Inbox>,
    looks: &mut Steps<L>,
) -> Result<Seq<Mover>, Memory>
    requires fit { (handle : Handle) (leaf : Leaf) → value_of grove.now handle ≡ Some (variant.Leaf leaf) → FitsLeaf program.now leaf }
    requires live { AllByRecursion (IsLeafAt grove.now) due.items }
    requires rise { Rise inboxes.old }
    ensures movers { IfOk result (λ movers. movers ≡ due_movers (system program.now) grove.now due.items inboxes.old) }
    ensures left { OnOk result (inboxes.new ≡ left_by due.items inboxes.old) }
    ensures ticks { OnOk result (looks.new ≤ looks.old + 2 * length due.items) }
{
    let mut movers = Seq::new(alloc);
    for one in due {
        let gets = take_gets(alloc, inboxes, one.handle);
        let mover = mover_with(alloc, program, grove, one.handle, one.path, gets, looks)?;
        movers.push(mover)?;
    }
    Ok(movers)
}

//! Those who are not due, and to whom something comes.

ghost use Rattle.std.specs.Prelude.{◌≡◌, ◌+◌, ◌*◌, ◌≤◌, ◌++◌, length, IfOk, OnOk, Some};
ghost use Rattle.std.specs.List.{flat_map};
ghost use Rattle.dsde_bank.specs.declared.handle.Handle.{Handle};
ghost use Rattle.dsde_sim_tree.specs.given.formalism.leaf_Leaf.{Leaf};
ghost use Rattle.dsde_sim_tree.specs.given.formalism.Leaf.{has_come};
ghost use Rattle.dsde_grove.specs.Grove.{value_of};
ghost use Rattle.dsde_core_parcels.specs.given.core_flat.spot_Spot_TheVariants as variant;
ghost use Rattle.dsde_sim_working.specs.given.system.Fitting.{FitsLeaf};
ghost use Rattle.dsde_sim_working.specs.given.system.Program.{system};
ghost use Rattle.dsde_core_parcels.specs.given.core_flat.Stands.{IsShallow};
ghost use Rattle.dsde_core_parcels.specs.Calling.{told_by};

use dsde_base::Steps;
use dsde_core_parcels::given::core_flat::{Spot, leaf_at};
use dsde_core_parcels::given::core_moves::Mover;
use dsde_core_parcels::{Inbox, spread};
use dsde_grove::Grove;
use dsde_sim_working::given::atomic::ports_in;
use dsde_sim_working::given::program::Program;
use dsde_sim_working::given::sim_starting::is_due;
use dsde_values::{Memory, Seq, Values};
use std::alloc::Global;
use std::sync::ledger::Ledger;

/// Whether some value came.
fn has_come(got: &[Values]) -> bool
    ensures { result ≡ has_come got.now }
{
    got.iter().any(|values| values.len() > 0)
}

/// Adds the target of an inbox to those that move, with what is in it, where it is not due. The inbox of
/// whoever is due is empty, and so is that of the root. Counts at most 67 looks, and none where it is empty.
fn add_told<L: Ledger>(
    alloc: Global,
    program: &Program,
    grove: &Grove<Spot>,
    inbox: Inbox,
    time: u64,
    movers: &mut Seq<Mover>,
    looks: &mut Steps<L>,
) -> Result<(), Memory>
    requires fit { (handle : Handle) (leaf : Leaf) → value_of grove.now handle ≡ Some (variant.Leaf leaf) → FitsLeaf program.now leaf }
    requires depth { IsShallow grove.now }
    ensures movers { OnOk result (movers.new ≡ movers.old ++ told_by (system program.now) grove.now time inbox) }
    ensures ticks { looks.new ≤ looks.old + 67 }
{
    let Inbox { target, gets } = inbox;
    if gets.is_empty() {
        return Ok(());
    }
    let Some(leaf) = leaf_at(grove, target, looks) else {
        return Ok(());
    };
    if is_due(leaf, time) {
        return Ok(());
    }
    let got = spread(alloc, ports_in(program, leaf.model), gets)?;
    if !has_come(got.as_slice()) {
        return Ok(());
    }
    let Some(path) = grove.path_of(target, looks)? else {
        unreachable!();
    };
    movers.push(Mover {
        handle: target,
        path,
        model: leaf.model,
        got,
    })
}

/// Those who are not due and to whom these inboxes bring something, in the order of the inboxes. A path is
/// made for each of them. Counts at most 67 looks for each inbox.
pub fn told_movers<L: Ledger>(
    alloc: Global,
    program: &Program,
    grove: &Grove<Spot>,
    inboxes: Seq<Inbox>,
    time: u64,
    looks: &mut Steps<L>,
) -> Result<Seq<Mover>, Memory>
    requires fit { (handle : Handle) (leaf : Leaf) → value_of grove.now handle ≡ Some (variant.Leaf leaf) → FitsLeaf program.now leaf }
    requires depth { IsShallow grove.now }
    ensures movers { IfOk result (λ movers. movers ≡ flat_map (told_by (system program.now) grove.now time) inboxes) }
    ensures ticks { OnOk result (looks.new ≤ looks.old + 67 * length inboxes) }
{
    let mut movers = Seq::new(alloc);
    for inbox in inboxes.into_vec() {
        add_told(alloc, program, grove, inbox, time, &mut movers, looks)?;
    }
    Ok(movers)
}

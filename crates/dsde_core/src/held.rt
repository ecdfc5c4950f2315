//! What lies under a handle, copied.

ghost use Rattle.std.specs.Prelude.{◌≡◌, true, IfOk, IsSome};
ghost use Rattle.dsde_grove.specs.Grove.{value_of};
ghost use Rattle.dsde_core_moving.specs.given.core_flat.Scheduled.{held_leaf};
ghost use Rattle.dsde_core_moving.specs.given.core_flat.Shown.{leaf_in, model_in, args_in};
ghost use Rattle.dsde_core.specs.Live.{holds_net};

use dsde_bank::Handle;
use dsde_base::Steps;
use dsde_core_moving::given::core_flat::{Spot, leaf_at};
use dsde_grove::Grove;
use dsde_language::ModelId;
use dsde_lists::Memory;
use dsde_sim_tree::given::formalism::Leaf;
use dsde_values::{Values, copy_values};
use std::alloc::Global;
use std::sync::ledger::Ledger;

/// A component or an executive equal to this one.
fn copy_leaf(alloc: Global, leaf: &Leaf) -> Result<Leaf, Memory>
    ensures { IfOk result (λ copy. copy ≡ leaf.now) }
{
    Ok(Leaf {
        model: leaf.model,
        boss: leaf.boss,
        args: copy_values(alloc, leaf.args.as_slice())?,
        state: copy_values(alloc, leaf.state.as_slice())?,
        last: leaf.last,
        next: leaf.next,
    })
}

/// The component or the executive under a handle, copied.
pub(crate) fn leaf_under<L: Ledger>(
    alloc: Global,
    grove: &Grove<Spot>,
    handle: Handle,
    looks: &mut Steps<L>,
) -> Result<Leaf, Memory>
    requires { IsSome (held_leaf (value_of grove.now handle)) }
    ensures { IfOk result (λ leaf. leaf ≡ leaf_in (value_of grove.now handle)) }
{
    let Some(leaf) = leaf_at(grove, handle, looks) else {
        unreachable!();
    };
    copy_leaf(alloc, leaf)
}

/// The model of the network under a handle, and its arguments, copied.
pub(crate) fn model_under<L: Ledger>(
    alloc: Global,
    grove: &Grove<Spot>,
    handle: Handle,
    looks: &mut Steps<L>,
) -> Result<(ModelId, Values), Memory>
    requires { holds_net (value_of grove.now handle) ≡ true }
    ensures model { IfOk result (λ net. net.0 ≡ model_in (value_of grove.now handle)) }
    ensures args { IfOk result (λ net. net.1 ≡ args_in (value_of grove.now handle)) }
{
    let Some(Spot::Net { model, args }) = grove.get(handle, looks) else {
        unreachable!();
    };
    Ok((*model, copy_values(alloc, args.as_slice())?))
}

//! What lies under a handle.

ghost use Rattle.std.specs.Prelude.{◌≡◌, ◌+◌, ◌≤◌};
ghost use Rattle.std.specs.Option.{option_copied};
ghost use Rattle.dsde_grove.specs.Grove.{value_of};
ghost use Rattle.dsde_core_flat.specs.Scheduled.{held_leaf, is_next};

use crate::Spot;
use dsde_bank::Handle;
use dsde_base::Steps;
use dsde_grove::Grove;
use dsde_sim_tree::given::formalism::Leaf;
use dsde_values::When;
use std::sync::ledger::Ledger;

/// The component or the executive under a handle; `None` exactly where none is live there. Counts at most
/// 2 looks.
pub fn leaf_at<'a, L: Ledger>(
    grove: &'a Grove<Spot>,
    handle: Handle,
    looks: &mut Steps<L>,
) -> Option<&'a Leaf>
    ensures leaf { option_copied result ≡ held_leaf (value_of grove.now handle) }
    ensures ticks { looks.new ≤ looks.old + 2 }
{
    match grove.get(handle, looks) {
        Some(Spot::Leaf(leaf)) => Some(leaf),
        _ => None,
    }
}

/// Whether a component or an executive is live under a handle that is due at this time. Counts at most 2
/// looks.
pub fn is_due_at<L: Ledger>(
    grove: &Grove<Spot>,
    time: u64,
    handle: Handle,
    looks: &mut Steps<L>,
) -> bool
    ensures value { result ≡ is_next (value_of grove.now handle) time }
    ensures ticks { looks.new ≤ looks.old + 2 }
{
    match leaf_at(grove, handle, looks) {
        Some(leaf) => match leaf.next {
            When::At(next) => next == time,
            When::Never => false,
        },
        None => false,
    }
}

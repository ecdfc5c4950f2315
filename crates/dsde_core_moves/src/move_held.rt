//! What lies under a handle is changed.

ghost use Rattle.std.specs.Prelude.{◌≡◌, ◌+◌, ◌<◌, ◌≤◌, ◌∷◌, List, length, IsSome};
ghost use Rattle.dsde_bank.specs.declared.handle.Handle.{Handle};
ghost use Rattle.dsde_core_flat.specs.given.grove.Grove.{spot, value_of, with_value, IsTree};
ghost use Rattle.dsde_core_flat.specs.declared.spot.Spot.TheVariants as variant;
ghost use Rattle.dsde_core_flat.specs.Scheduled.{held_leaf, IsScheduledBut};
ghost use Rattle.dsde_core_flat.specs.Shown.{leaf_in, NO_LEAF};

use dsde_bank::Handle;
use dsde_base::Steps;
use dsde_core_flat::given::grove::Grove;
use dsde_core_flat::{Spot, schedule};
use dsde_language::ModelId;
use dsde_queue::Queue;
use dsde_sim_tree::given::formalism::Leaf;
use dsde_values::{Seq, When};
use std::alloc::Global;
use std::mem;
use std::sync::ledger::Ledger;

/// A component without arguments and state.
fn no_leaf(alloc: Global) -> Leaf
    ensures { result ≡ NO_LEAF }
{
    Leaf {
        model: ModelId(0),
        boss: false,
        args: Seq::new(alloc),
        state: Seq::new(alloc),
        last: 0,
        next: When::Never,
    }
}

/// Takes the component or the executive under a handle out: one without arguments and state lies there then.
/// Counts at most 2 looks.
pub(crate) fn take_leaf<L: Ledger>(
    alloc: Global,
    grove: &mut Grove<Spot>,
    handle: Handle,
    looks: &mut Steps<L>,
) -> Leaf
    requires { IsSome (held_leaf (value_of grove.old handle)) }
    ensures taken { result ≡ leaf_in (value_of grove.old handle) }
    ensures left { grove.new ≡ with_value grove.old handle (variant.Leaf NO_LEAF) }
    ensures ticks { looks.new ≤ looks.old + 2 }
{
    let Some(held) = grove.get_mut(handle, looks) else {
        unreachable!();
    };
    match mem::replace(held, Spot::Leaf(no_leaf(alloc))) {
        Spot::Leaf(leaf) => leaf,
        Spot::Net { model: _, args: _ } => unreachable!(),
    }
}

/// Puts a component or an executive under a live handle, in place of what lay there. Counts at most 2
/// looks.
pub fn put_leaf<L: Ledger>(
    grove: &mut Grove<Spot>,
    handle: Handle,
    leaf: Leaf,
    looks: &mut Steps<L>,
)
    requires { IsSome (spot grove.old handle) }
    ensures put { grove.new ≡ with_value grove.old handle (variant.Leaf leaf) }
    ensures tree { IsTree grove.new }
    ensures ticks { looks.new ≤ looks.old + 2 }
{
    let Some(held) = grove.get_mut(handle, looks) else {
        unreachable!();
    };
    *held = Spot::Leaf(leaf);
}

/// Puts a component or an executive that has moved under its handle, and its next event into the schedule,
/// which has room for it: it waits no longer. Counts at most 2 looks.
pub fn put_moved<L: Ledger>(
    grove: &mut Grove<Spot>,
    queue: &mut Queue,
    handle: Handle,
    moved: Leaf,
    looks: &mut Steps<L>,
)
    requires live { IsSome (held_leaf (value_of grove.old handle)) }
    requires room { 0 < queue.old.spare }
    ensures put { grove.new ≡ with_value grove.old handle (variant.Leaf moved) }
    ensures waits { (rest : List Handle) → IsScheduledBut grove.old (handle ∷ rest) queue.old.pairs → IsScheduledBut grove.new rest queue.new.pairs }
    ensures tree { IsTree grove.new }
    ensures longer { length queue.new.pairs ≤ length queue.old.pairs + 1 }
    ensures ticks { looks.new ≤ looks.old + 2 }
{
    let next = moved.next;
    put_leaf(grove, handle, moved, looks);
    schedule(queue, handle, next);
}

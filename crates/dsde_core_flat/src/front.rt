//! When a tree is due.

ghost use Rattle.std.specs.Prelude.{◌≡◌, ◌+◌, ◌*◌, ◌≤◌, length, Option};
ghost use Rattle.std.specs.Option.{option_map};
ghost use Rattle.dsde_bank.specs.declared.handle.Handle.{Handle};
ghost use Rattle.dsde_queue.specs.Queue.{first_of, time_of, IsOrdered};
ghost use Rattle.dsde_sim_tree.specs.declared.sim.Sim.{Sim};
ghost use Rattle.dsde_sim_tree.specs.Tree.{next_time};
ghost use Rattle.dsde_routes_wiring.specs.declared.wiring.Wiring.{Wiring};
ghost use Rattle.dsde_core_flat.specs.Scheduled.{IsScheduled, when_of};
ghost use Rattle.dsde_core_flat.specs.Stands.{StandsFor};

use crate::Spot;
use crate::held::is_due_at;
use dsde_base::Steps;
use dsde_grove::Grove;
use dsde_queue::Queue;
use std::sync::ledger::Ledger;

/// Takes stale pairs out of a schedule, until the first one is current. Gives the time at which the tree
/// is due, which is then that of the first pair. Each pair that leaves pays for its looks with 4, and 2
/// more may be counted.
pub fn due_time<L: Ledger>(
    grove: &Grove<Spot>,
    queue: &mut Queue,
    looks: &mut Steps<L>,
) -> Option<u64>
    requires { IsScheduled grove.now queue.old.pairs }
    ensures scheduled { IsScheduled grove.now queue.new.pairs }
    ensures time { (top : Handle) (wiring : Option Wiring) (tree : Sim) → StandsFor grove.now top wiring tree → next_time tree ≡ when_of result }
    ensures ordered { IsOrdered queue.new.pairs }
    ensures least { option_map time_of (first_of queue.new.pairs) ≡ result }
    ensures shorter { length queue.new.pairs ≤ length queue.old.pairs }
    ensures ticks { looks.new + 4 * length queue.new.pairs ≤ looks.old + 4 * length queue.old.pairs + 2 }
{
    while let Some((time, handle)) = queue.least() {
        if is_due_at(grove, time, handle, looks) {
            return Some(time);
        }
        queue.take_first();
    }
    None
}

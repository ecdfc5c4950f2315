//! A schedule loses what is stale.

ghost use Rattle.std.specs.Prelude.{◌≡◌, ◌+◌, ◌<◌, ◌≤◌, ◌≢◌, filter, length, AllPairs};
ghost use Rattle.std.specs.FinMap as finmap;
ghost use Rattle.std.specs.List.{dedup};
ghost use Rattle.dsde_grove.specs.Grove.{value_of};
ghost use Rattle.dsde_queue.specs.Queue.{IsOrdered, is_same};
ghost use Rattle.dsde_core_flat.specs.Scheduled.{is_next, is_current, IsScheduled};

use crate::Spot;
use crate::held::is_due_at;
use dsde_bank::Handle;
use dsde_base::Steps;
use dsde_grove::Grove;
use dsde_queue::Queue;
use std::marker::Brand;
use std::sync::ledger::{Blank, Ledger};

/// `is_due_at` with a count of looks of its own, which is kept nowhere.
fn is_live_at<L: Ledger>(grove: &Grove<Spot>, time: u64, handle: Handle, blank: Blank) -> bool
    requires name { blank.name ≡ L.name }
    requires parts { blank.parts ≡ L.parts }
    requires backed { 0 < blank.parts }
    ensures { result ≡ is_next (value_of grove.now handle) time }
{
    let mut looks = Steps::<L>::new(blank);
    is_due_at(grove, time, handle, &mut looks)
}

/// Whether a component or an executive is live under a handle that is due at this time.
fn is_live(grove: &Grove<Spot>, time: u64, handle: Handle) -> bool
    ensures { result ≡ is_next (value_of grove.now handle) time }
{
    is_live_at::<Brand>(grove, time, handle, Blank::new(1))
}

/// Keeps the current pairs of a schedule, each once.
fn compact(grove: &Grove<Spot>, queue: &mut Queue)
    ensures kept { queue.new.pairs ≡ dedup is_same (filter (is_current grove.now) queue.old.pairs) }
    ensures once { AllPairs (λ pair other. pair ≢ other) queue.new.pairs }
    ensures room { queue.new.spare + length queue.new.pairs ≡ queue.old.spare + length queue.old.pairs }
{
    queue.compact(&|time, handle| is_live(grove, time, handle));
}

/// Keeps the current pairs of a schedule, each once: no more than parts are live. At most 2 looks a pair are
/// made, which are counted nowhere.
pub fn compact_schedule(grove: &Grove<Spot>, queue: &mut Queue)
    requires { IsScheduled grove.now queue.old.pairs }
    ensures scheduled { IsScheduled grove.now queue.new.pairs }
    ensures few { length queue.new.pairs ≤ finmap.len grove.now.parts }
    ensures room { queue.new.spare + length queue.new.pairs ≡ queue.old.spare + length queue.old.pairs }
{
    compact(grove, queue);
}

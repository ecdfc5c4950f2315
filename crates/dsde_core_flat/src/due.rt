//! Who is due at a time.

ghost use Rattle.std.specs.Prelude.{◌≡◌, ◌+◌, ◌*◌, ◌≤◌, ◌^◌, ◌<◌, None, length, map, IfOk, IfSome, IsSome, MatchOption, OnOk};
ghost use Rattle.std.specs.Option.{option_map};
ghost use Rattle.dsde_grove.specs.Grove.{spot, IsTree};
ghost use Rattle.dsde_queue.specs.Queue.{first_of, time_of, handles, IsOrdered, IsNotFirst, TakesFirst};
ghost use Rattle.dsde_core_flat.specs.Scheduled.{IsScheduled, IsScheduledBut};
ghost use Rattle.dsde_core_flat.specs.Stands.{IsShallow};
ghost use Rattle.dsde_core_flat.specs.Due.{AreDue, handle_of, is_again, is_new, due_at, due_after, at_time, after_time};

use crate::Spot;
use crate::held::is_due_at;
use crate::order::in_path_order;
use dsde_bank::Handle;
use dsde_base::Steps;
use dsde_grove::Grove;
use dsde_lists::Memory;
use dsde_queue::Queue;
use dsde_values::Path;
use std::alloc::Global;
use std::sync::ledger::Ledger;

/// A component or an executive that is due: its path and its handle.
#[derive(Drop)]
pub struct Due {
    pub path: Path,
    pub handle: Handle,
}

/// Whether a handle is the one before it.
fn is_again(last: Option<Handle>, handle: Handle) -> bool
    ensures { result ≡ is_again last handle }
{
    match last {
        Some(before) => before.birth == handle.birth && before.slot == handle.slot,
        None => false,
    }
}

/// Whether who lives under a handle is due at a time, and is not the one before. Counts at most 2 looks.
fn is_new<L: Ledger>(
    grove: &Grove<Spot>,
    time: u64,
    last: Option<Handle>,
    handle: Handle,
    looks: &mut Steps<L>,
) -> bool
    ensures value { result ≡ is_new grove.now time last handle }
    ensures ticks { looks.new ≤ looks.old + 2 }
{
    is_due_at(grove, time, handle, looks) && !is_again(last, handle)
}

/// Who lives under a handle, with its path. Counts at most 65 looks.
fn due_at<L: Ledger>(
    grove: &Grove<Spot>,
    handle: Handle,
    looks: &mut Steps<L>,
) -> Result<Due, Memory>
    requires live { IsSome (spot grove.now handle) }
    requires depth { IsShallow grove.now }
    ensures due { IfOk result (λ due. due ≡ due_at grove.now handle) }
    ensures ticks { looks.new ≤ looks.old + 65 }
{
    let Some(path) = grove.path_of(handle, looks)? else {
        unreachable!();
    };
    Ok(Due { path, handle })
}

/// The first pair of a schedule leaves it, if it is of this time.
fn take_at(queue: &mut Queue, time: u64) -> Option<Handle>
    ensures taken { MatchOption result (IsNotFirst time queue.old.pairs × (queue.new ≡ queue.old)) (λ handle. TakesFirst queue.old queue.new (time, handle)) }
    ensures ordered { IsOrdered queue.old.pairs }
{
    match queue.least() {
        Some((first, handle)) if first == time => {
            queue.take_first();
            Some(handle)
        }
        _ => None,
    }
}

/// Takes the pairs of a time out of a schedule in which none is earlier. Gives who is due at them, in
/// their order.
fn take_due<L: Ledger>(
    alloc: Global,
    grove: &Grove<Spot>,
    queue: &mut Queue,
    time: u64,
    looks: &mut Steps<L>,
) -> Result<Vec<Due>, Memory>
    requires depth { IsShallow grove.now }
    requires least { IfSome (option_map time_of (first_of queue.old.pairs)) (λ first. time ≤ first) }
    ensures list { IfOk result (λ list. list.items ≡ due_after grove.now time None (handles (at_time time queue.old.pairs))) }
    ensures pairs { OnOk result (queue.new.pairs ≡ after_time time queue.old.pairs) }
    ensures ticks { IfOk result (λ list. looks.new + 4 * length queue.new.pairs ≤ looks.old + 4 * length queue.old.pairs + 65 * length list.items) }
{
    let mut list = Vec::new(alloc);
    let mut last = None;
    while let Some(handle) = take_at(queue, time) {
        if is_new(grove, time, last, handle, looks) {
            let due = due_at(grove, handle, looks)?;
            list.push(due)?;
            last = Some(handle);
        }
    }
    Ok(list)
}

/// Takes the pairs of a time out of a schedule in which none is earlier, without a look at who is due.
pub fn pass_due(queue: &mut Queue, time: u64)
    requires least { IfSome (option_map time_of (first_of queue.old.pairs)) (λ first. time ≤ first) }
    ensures pairs { queue.new.pairs ≡ after_time time queue.old.pairs }
    ensures shorter { length queue.new.pairs ≤ length queue.old.pairs }
{
    while let Some(_handle) = take_at(queue, time) {}
}

/// Takes the pairs of a turn's time out of the schedule, in which none is earlier. Gives who is due at that
/// time, in path order, each once; they wait for their moves. Each pair that leaves pays for its looks
/// with 4, and each who is due adds at most 65. `Memory` where there is none: then some pairs have left.
pub fn turn_due<L: Ledger>(
    alloc: Global,
    grove: &Grove<Spot>,
    queue: &mut Queue,
    time: u64,
    looks: &mut Steps<L>,
) -> Result<Vec<Due>, Memory>
    requires tree { IsTree grove.now }
    requires scheduled { IsScheduled grove.now queue.old.pairs }
    requires ordered { IsOrdered queue.old.pairs }
    requires least { IfSome (option_map time_of (first_of queue.old.pairs)) (λ first. time ≤ first) }
    requires depth { IsShallow grove.now }
    ensures due { IfOk result (λ list. AreDue grove.now time list.items) }
    ensures left { IfOk result (λ list. IsScheduledBut grove.now (map handle_of list.items) queue.new.pairs) }
    ensures ticks { IfOk result (λ list. looks.new + 4 * length queue.new.pairs ≤ looks.old + 4 * length queue.old.pairs + 65 * length list.items) }
{
    let list = take_due(alloc, grove, queue, time, looks)?;
    let sorted = in_path_order(list)?;
    Ok(sorted)
}

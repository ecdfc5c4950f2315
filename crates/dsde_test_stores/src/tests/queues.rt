//! Schedules.

use dsde_bank::{Batch, Handle};
use dsde_queue::Queue;

type Pair = (u64, Handle);

/// Adds a thousand pairs, of which many have one time, and answers whether that succeeded. Their
/// births are odd, or else even.
fn add_pairs(pairs: &mut Vec<Pair>, odd: u8) -> bool {
    for number in 0..1000usize {
        let time = (number * 7919 % 300) as u64;
        let birth = number as u64 * 2 + odd as u64;
        let slot = 1000 - number;
        if pairs.push((time, Handle { birth, slot })).is_err() {
            return false;
        }
    }
    true
}

/// Makes room for each pair and puts it in, and answers whether that succeeded.
fn put_all(queue: &mut Queue, pairs: &[Pair]) -> bool {
    for (time, handle) in pairs {
        if queue.reserve(1).is_err() {
            return false;
        }
        queue.put_reserved(*time, *handle);
    }
    true
}

/// Takes a hundred pairs one by one.
fn take_some(queue: &mut Queue, taken: &mut Vec<Pair>) -> bool {
    for _ in 0..100 {
        let least = queue.least();
        let first = queue.take_first();
        match first {
            Some(pair) if least == first && taken.push(pair).is_ok() => {}
            _ => return false,
        }
    }
    true
}

/// Takes the pairs of the least time.
fn take_time(queue: &mut Queue, due: &mut Batch<Handle>, taken: &mut Vec<Pair>) -> bool {
    due.clear();
    if due.reserve(queue.len()).is_err() {
        return false;
    }
    let Some(time) = queue.take_least(due) else {
        return true;
    };
    for handle in due.as_slice() {
        if taken.push((time, *handle)).is_err() {
            return false;
        }
    }
    true
}

/// Takes all pairs, those of one time together.
fn take_times(queue: &mut Queue, due: &mut Batch<Handle>, taken: &mut Vec<Pair>) -> bool {
    for _ in 0..=queue.len() {
        if !take_time(queue, due, taken) {
            return false;
        }
    }
    true
}

/// Whether a queue is a sorted list of which the first hundred pairs are taken one by one, and then
/// those of one time together, if it was given pairs of odd births twice, and others that it drops.
fn is_sorted(
    queue: &mut Queue,
    odd: &mut Vec<Pair>,
    even: &mut Vec<Pair>,
    due: &mut Batch<Handle>,
    taken: &mut Vec<Pair>,
) -> bool {
    let are_put = add_pairs(odd, 1)
        && add_pairs(even, 0)
        && put_all(queue, odd)
        && put_all(queue, even)
        && put_all(queue, odd);
    queue.compact(&|_time: u64, handle: Handle| handle.birth % 2 == 1);
    odd.sort_unstable();
    are_put
        && take_some(queue, taken)
        && take_times(queue, due, taken)
        && taken.as_slice() == odd.as_slice()
        && queue.take_first().is_none()
}

#[test]
fn a_queue_is_a_sorted_list(rt: HostRuntime) {
    let alloc = rt.alloc();
    assert!(rt;
        is_sorted(
            &mut Queue::new(alloc),
            &mut Vec::new(alloc),
            &mut Vec::new(alloc),
            &mut Batch::new(alloc),
            &mut Vec::new(alloc),
        )
    );
}

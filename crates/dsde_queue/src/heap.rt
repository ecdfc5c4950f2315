//! Steps that keep pairs as a heap, in which no pair comes before its parent.

ghost use Rattle.std.specs.Prelude.{◌+◌, ◌*◌, ◌<◌, ◌≤◌, length};
ghost use Rattle.std.specs.List.Sorted.{IsPermutation};
ghost use Rattle.dsde_queue.specs.Heap.{IsHeap, IsHeapFrom, IsHeapBut, IsFirstChild, ComesBeforeAt};

use dsde_bank::Handle;

/// Moves the pair at `at` up, until it does not come before its parent.
pub fn rise(pairs: &mut [(u64, Handle)], mut at: usize)
    requires within { at < length pairs.old }
    ensures permutation { IsPermutation pairs.old pairs.new }
    ensures heap { IsHeapBut pairs.old at → IsHeap pairs.new }
{
    while 0 < at {
        let parent = (at - 1) / 2;
        if !comes_before_at(pairs, at, parent) {
            return;
        }
        pairs.swap(parent, at);
        at = parent;
    }
}

/// Moves the first pair down, until no child comes before it.
pub fn sink(pairs: &mut [(u64, Handle)])
    ensures permutation { IsPermutation pairs.old pairs.new }
    ensures heap { IsHeapFrom pairs.old 1 → IsHeap pairs.new }
{
    let mut at = 0;
    while at < pairs.len() / 2 {
        let child = first_child(pairs, at);
        if !comes_before_at(pairs, child, at) {
            return;
        }
        pairs.swap(at, child);
        at = child;
    }
}

/// The child that the other one does not come before.
fn first_child(pairs: &[(u64, Handle)], at: usize) -> usize
    requires { at * 2 + 1 < length pairs.now }
    ensures bound { (at * 2 + 1 ≤ result) × (result ≤ at * 2 + 2) × (result < length pairs.now) }
    ensures first { IsFirstChild pairs.now at result }
{
    let left = at * 2 + 1;
    if left + 1 < pairs.len() && comes_before_at(pairs, left + 1, left) {
        left + 1
    } else {
        left
    }
}

fn comes_before_at(pairs: &[(u64, Handle)], at: usize, other: usize) -> bool
    requires at_within { at < length pairs.now }
    requires other_within { other < length pairs.now }
    ensures { ComesBeforeAt pairs.now at other result }
{
    pairs[at] < pairs[other]
}

//! Banks and batches.

use dsde_bank::{Bank, Batch, Handle};
use dsde_base::Steps;
use std::alloc::Global;
use std::mem;
use std::sync::ledger::Ledger;

/// Puts a value in, while there are births left.
fn insert<L: Ledger>(bank: &mut Bank<u8>, value: u8, looks: &mut Steps<L>) -> Option<Handle> {
    if bank.reserve(1).is_err() || bank.born() == u64::MAX {
        return None;
    }
    Some(bank.insert_reserved(value, looks))
}

/// Puts a value in the place of that under a handle, and answers the one before.
fn change<L: Ledger>(
    bank: &mut Bank<u8>,
    handle: Handle,
    value: u8,
    looks: &mut Steps<L>,
) -> Option<u8> {
    match bank.get_mut(handle, looks) {
        Some(place) => Some(mem::replace(place, value)),
        None => None,
    }
}

/// Whether this value is found under a handle, is changed there, and is taken out.
fn is_taken<L: Ledger>(
    bank: &mut Bank<u8>,
    handle: Handle,
    value: u8,
    looks: &mut Steps<L>,
) -> bool {
    matches!(bank.get(handle, looks), Some(found) if *found == value)
        && matches!(change(bank, handle, b'z', looks), Some(before) if before == value)
        && matches!(bank.take(handle, looks), Some(b'z'))
}

/// Whether a handle finds nothing.
fn is_gone<L: Ledger>(bank: &mut Bank<u8>, handle: Handle, looks: &mut Steps<L>) -> bool {
    bank.get(handle, looks).is_none()
        && bank.get_mut(handle, looks).is_none()
        && bank.take(handle, looks).is_none()
}

/// Whether the second value lies in the slot of the first, whose handle finds nothing any more.
fn is_used_again<L: Ledger>(bank: &mut Bank<u8>, looks: &mut Steps<L>) -> bool {
    let Some(first) = insert(bank, b'x', looks) else {
        return false;
    };
    let is_first = is_taken(bank, first, b'x', looks);
    let Some(second) = insert(bank, b'y', looks) else {
        return false;
    };
    is_first
        && first.slot == second.slot
        && is_gone(bank, first, looks)
        && is_taken(bank, second, b'y', looks)
        && bank.born() == 2
}

/// The same of a new bank.
pub fn a_slot_is_used_again<L: Ledger>(alloc: Global, looks: &mut Steps<L>) -> bool {
    is_used_again(&mut Bank::new(alloc), looks)
}

/// Puts that many values in, and answers whether that succeeded.
fn insert_all<L: Ledger>(
    bank: &mut Bank<u8>,
    handles: &mut Vec<Handle>,
    count: u16,
    looks: &mut Steps<L>,
) -> bool {
    for _ in 0..count {
        match insert(bank, b'v', looks) {
            Some(handle) if handles.push(handle).is_ok() => {}
            _ => return false,
        }
    }
    true
}

/// Takes out each value whose birth has none of these bits, and answers their number.
fn take_all<L: Ledger>(
    bank: &mut Bank<u8>,
    handles: &[Handle],
    bits: u64,
    looks: &mut Steps<L>,
) -> u64 {
    let mut taken = 0u64;
    for handle in handles {
        if handle.birth & bits == 0 && bank.take(*handle, looks).is_some() {
            taken = taken.saturating_add(1);
        }
    }
    taken
}

/// Whether a bank of thousands keeps what it should where each fourth value is taken out.
fn is_thinned<L: Ledger>(
    bank: &mut Bank<u8>,
    handles: &mut Vec<Handle>,
    looks: &mut Steps<L>,
) -> bool {
    insert_all(bank, handles, 4000, looks)
        && take_all(bank, handles, 3, looks) == 1000
        && insert_all(bank, handles, 2000, looks)
        && bank.len() == 5000
        && take_all(bank, handles, 0, looks) == 5000
        && bank.len() == 0
}

/// The same of a new bank.
pub fn thousands_are_kept<L: Ledger>(alloc: Global, looks: &mut Steps<L>) -> bool {
    is_thinned(&mut Bank::new(alloc), &mut Vec::new(alloc), looks)
}

/// Adds the items in room that is made before, and answers whether that succeeded.
fn fill(batch: &mut Batch<u8>, items: &[u8]) -> bool {
    for item in items {
        if batch.reserve(1).is_err() {
            return false;
        }
        batch.push_reserved(*item);
    }
    true
}

/// Whether a batch of thousands gives back what it should.
fn is_kept(batch: &mut Batch<u8>) -> bool {
    let is_full = fill(batch, &[b'a'; 5000]) && fill(batch, b"bc");
    let last = batch.pop();
    let left = batch.as_slice().len();
    batch.clear();
    is_full
        && matches!(last, Some(b'c'))
        && left == 5001
        && batch.pop().is_none()
        && fill(batch, b"d")
        && batch.as_slice() == b"d".as_slice()
}

#[test]
fn a_batch_keeps_its_order(rt: HostRuntime) {
    assert!(rt; is_kept(&mut Batch::new(rt.alloc())));
}

//! Trees of parts.

use dsde_bank::Handle;
use dsde_base::Steps;
use dsde_grove::{Grove, GrowEnd};
use dsde_values::{Memory, Name, Stem, Text, write_path};
use std::alloc::Global;
use std::mem;
use std::sync::ledger::Ledger;

/// The name `m[index]`.
fn name(alloc: Global, index: u64) -> Result<Name, Memory> {
    Ok(Name {
        stem: Stem::from_slice(alloc, b"m")?,
        index: Some(index),
    })
}

/// Grows a part of the name `m[index]`, while there are births left.
fn grow<L: Ledger>(
    alloc: Global,
    grove: &mut Grove<u8>,
    parent: Handle,
    index: u64,
    looks: &mut Steps<L>,
) -> Result<Handle, (GrowEnd, u8)> {
    match name(alloc, index) {
        Ok(name) if grove.born() < u64::MAX => grove.grow(parent, name, b'v', looks),
        _ => Err((GrowEnd::Memory, b'v')),
    }
}

/// Whether a part has this child, or none, of the name `m[index]`.
fn has_child<L: Ledger>(
    alloc: Global,
    grove: &Grove<u8>,
    parent: Handle,
    index: u64,
    wanted: Option<Handle>,
    looks: &mut Steps<L>,
) -> bool {
    match name(alloc, index) {
        Ok(name) => grove.child(parent, &name, looks) == wanted,
        Err(Memory) => false,
    }
}

/// Whether the path of a part is written so: as nothing, where there is no part.
fn has_path<L: Ledger>(
    alloc: Global,
    grove: &Grove<u8>,
    handle: Handle,
    wanted: &[u8],
    looks: &mut Steps<L>,
) -> bool {
    let mut text = Text::new(alloc);
    let is_written = match grove.path_of(handle, looks) {
        Ok(Some(path)) => write_path(&path, &mut text).is_ok(),
        Ok(None) => true,
        Err(Memory) => false,
    };
    is_written && text.as_slice() == wanted
}

/// Puts a value in the place of that of a part, and answers the one before.
fn change<L: Ledger>(
    grove: &mut Grove<u8>,
    handle: Handle,
    value: u8,
    looks: &mut Steps<L>,
) -> Option<u8> {
    match grove.get_mut(handle, looks) {
        Some(place) => Some(mem::replace(place, value)),
        None => None,
    }
}

/// Whether a handle finds the value of a new part, which is changed.
fn is_changed<L: Ledger>(grove: &mut Grove<u8>, handle: Handle, looks: &mut Steps<L>) -> bool {
    matches!(grove.get(handle, looks), Some(b'v'))
        && matches!(change(grove, handle, b'w', looks), Some(b'v'))
        && matches!(grove.get(handle, looks), Some(b'w'))
}

/// Whether a handle finds nothing.
fn is_gone<L: Ledger>(
    alloc: Global,
    grove: &mut Grove<u8>,
    handle: Handle,
    looks: &mut Steps<L>,
) -> bool {
    grove.get(handle, looks).is_none()
        && grove.get_mut(handle, looks).is_none()
        && has_child(alloc, grove, handle, 1, None, looks)
        && has_path(alloc, grove, handle, b"", looks)
        && matches!(
            grow(alloc, grove, handle, 1, looks),
            Err((GrowEnd::Stale, b'v'))
        )
        && grove.drop_subtree(handle, looks).is_none()
}

/// Whether a part is dropped with that many in all, which leaves so many.
fn is_dropped<L: Ledger>(
    grove: &mut Grove<u8>,
    handle: Handle,
    count: u64,
    left: u64,
    looks: &mut Steps<L>,
) -> bool {
    matches!(grove.drop_subtree(handle, looks), Some(dropped) if dropped == count)
        && grove.live() == left
}

/// Whether two parts, the second below the first, are found as they should, and are dropped. The
/// first has the name `m[0]` below the root.
fn are_dropped<L: Ledger>(
    alloc: Global,
    grove: &mut Grove<u8>,
    root: Handle,
    first: Handle,
    second: Handle,
    looks: &mut Steps<L>,
) -> bool {
    is_changed(grove, second, looks)
        && has_child(alloc, grove, first, 1, Some(second), looks)
        && has_path(alloc, grove, second, b"root/m[0]/m[1]", looks)
        && matches!(
            grow(alloc, grove, root, 0, looks),
            Err((GrowEnd::Taken, b'v'))
        )
        && is_dropped(grove, first, 2, 1, looks)
}

/// Whether that is so of two new parts, and a third of the first one's name is found, while their
/// handles find nothing.
fn is_round<L: Ledger>(
    alloc: Global,
    grove: &mut Grove<u8>,
    root: Handle,
    looks: &mut Steps<L>,
) -> bool {
    let Ok(first) = grow(alloc, grove, root, 0, looks) else {
        return false;
    };
    let Ok(second) = grow(alloc, grove, first, 1, looks) else {
        return false;
    };
    let are_dropped = are_dropped(alloc, grove, root, first, second, looks);
    let Ok(third) = grow(alloc, grove, root, 0, looks) else {
        return false;
    };
    are_dropped
        && has_child(alloc, grove, root, 0, Some(third), looks)
        && has_path(alloc, grove, third, b"root/m[0]", looks)
        && is_gone(alloc, grove, first, looks)
        && is_gone(alloc, grove, second, looks)
        && is_dropped(grove, third, 1, 1, looks)
}

/// Whether a part that was dropped stays dropped, in a thousand rounds.
fn are_rounds<L: Ledger>(
    alloc: Global,
    grove: &mut Grove<u8>,
    root: Handle,
    looks: &mut Steps<L>,
) -> bool {
    for _ in 0..1000 {
        if !is_round(alloc, grove, root, looks) {
            return false;
        }
    }
    grove.born() == 3001
}

/// Grows a tree of five levels, in which each part above the last has four below it, and answers
/// whether that succeeded. The root is the first of the handles.
fn grow_all<L: Ledger>(
    alloc: Global,
    grove: &mut Grove<u8>,
    handles: &mut Vec<Handle>,
    looks: &mut Steps<L>,
) -> bool {
    for number in 0..340usize {
        let Some(parent) = handles.get(number / 4) else {
            return false;
        };
        match grow(alloc, grove, *parent, number as u64 % 4, looks) {
            Ok(handle) if handles.push(handle).is_ok() => {}
            _ => return false,
        }
    }
    true
}

/// Whether so many handles find a path, and these have so many names.
fn are_walked<L: Ledger>(
    grove: &Grove<u8>,
    handles: &[Handle],
    found: u64,
    names: u64,
    looks: &mut Steps<L>,
) -> bool {
    let mut paths = 0u64;
    let mut all_names = 0u64;
    for handle in handles {
        if let Ok(Some(path)) = grove.path_of(*handle, looks) {
            paths = paths.saturating_add(1);
            all_names = all_names.saturating_add(path.names.len() as u64);
        }
    }
    paths == found && all_names == names
}

/// Whether a tree of hundreds is walked as it should, also once it is dropped from a part in its
/// middle on, and from its root.
fn is_walked<L: Ledger>(
    alloc: Global,
    grove: &mut Grove<u8>,
    handles: &[Handle],
    looks: &mut Steps<L>,
) -> bool {
    let [root, middle, .., last] = handles else {
        return false;
    };
    has_path(alloc, grove, *last, b"root/m[3]/m[3]/m[3]/m[3]", looks)
        && are_walked(grove, handles, 341, 1593, looks)
        && is_dropped(grove, *middle, 85, 256, looks)
        && are_walked(grove, handles, 256, 1195, looks)
        && is_dropped(grove, *root, 256, 0, looks)
        && are_walked(grove, handles, 0, 0, looks)
        && is_gone(alloc, grove, *root, looks)
}

/// Whether a tree of hundreds is grown, walked and dropped.
fn are_hundreds<L: Ledger>(
    alloc: Global,
    grove: &mut Grove<u8>,
    root: Handle,
    handles: &mut Vec<Handle>,
    looks: &mut Steps<L>,
) -> bool {
    handles.push(root).is_ok()
        && grow_all(alloc, grove, handles, looks)
        && is_walked(alloc, grove, handles, looks)
}

/// Whether parts are found as they should: those of small trees, and then those of a large one.
pub fn parts_are_found<L: Ledger>(alloc: Global, looks: &mut Steps<L>) -> bool {
    match Grove::new(alloc, b'v') {
        Ok((mut grove, root)) => {
            are_rounds(alloc, &mut grove, root, looks)
                && are_hundreds(alloc, &mut grove, root, &mut Vec::new(alloc), looks)
        }
        Err(Memory) => false,
    }
}

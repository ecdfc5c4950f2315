//! Handles that differ.

ghost use Rattle.std.specs.Prelude.{◌≡◌, IfOk};
ghost use Rattle.std.specs.Bool.{OnTrue};
ghost use Rattle.std.specs.List.{IsDistinct};
ghost use Rattle.dsde_routes_wiring.specs.Wired.{is_same_handle};
ghost use Rattle.dsde_repair.specs.Rising.{AreRising, IsOlder};

use dsde_bank::Handle;
use dsde_lists::Memory;
use dsde_values::Seq;

/// Whether a handle is older than the first of these, if there is one.
fn is_older(handle: &Handle, handles: &[Handle]) -> bool
    ensures { OnTrue result (IsOlder handle.now handles.now) }
{
    match handles.first() {
        None => true,
        Some(next) => handle.birth < next.birth,
    }
}

/// Whether each handle is older than all later ones.
fn are_rising(handles: &[Handle]) -> bool
    ensures { OnTrue result (AreRising handles.now) }
{
    for (index, handle) in handles.iter().enumerate() {
        if !is_older(handle, &handles[index + 1..]) {
            return false;
        }
    }
    true
}

/// Whether the births of handles differ.
pub fn are_apart(handles: Seq<Handle>) -> Result<bool, Memory>
    ensures { IfOk result (λ apart. OnTrue apart (IsDistinct is_same_handle handles)) }
{
    let mut handles = handles.into_vec();
    handles.sort()?;
    Ok(are_rising(handles.as_slice()))
}

//! The handles of a wiring.

ghost use Rattle.std.specs.Prelude.{◌≡◌, ◌++◌, OnOk};
ghost use Rattle.std.specs.List.{flat_map};
ghost use Rattle.dsde_routes_wiring.specs.Touched.{handles_of, handles_of_kid};

use dsde_bank::Handle;
use dsde_lists::Memory;
use dsde_routes_wiring::{WiredKid, Wiring};
use dsde_values::Seq;

/// Adds the handles of a network and of what is beneath it.
#[cycle(handles)]
pub fn add_handles(net: &Wiring, handles: &mut Seq<Handle>) -> Result<(), Memory>
    ensures { OnOk result (handles.new ≡ handles.old ++ handles_of net.now) }
{
    handles.push(net.me)?;
    handles.push(net.boss)?;
    add_beneath(net.kids.as_slice(), handles)
}

/// Adds those of components.
#[cycle(handles)]
pub fn add_beneath(kids: &[WiredKid], handles: &mut Seq<Handle>) -> Result<(), Memory>
    ensures { OnOk result (handles.new ≡ handles.old ++ flat_map handles_of_kid kids.now) }
{
    for kid in kids {
        add_kid(kid, handles)?;
    }
    Ok(())
}

/// Adds those of one.
#[cycle(handles)]
fn add_kid(kid: &WiredKid, handles: &mut Seq<Handle>) -> Result<(), Memory>
    ensures { OnOk result (handles.new ≡ handles.old ++ handles_of_kid kid.now) }
{
    match &kid.below {
        None => handles.push(kid.handle),
        Some(below) => add_handles(below.get(), handles),
    }
}

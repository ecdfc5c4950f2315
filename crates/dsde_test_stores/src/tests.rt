//! What no clause says: that each call succeeds with ample memory, what real files and streams do, and examples from outside.
//!
//! A test asserts what a helper answers that promises nothing, so that no long contract burdens a later goal; and calls stand one by
//! one, since each row of a table that stands in code costs more than its call.

ghost use Rattle.std.specs.Prelude.{◌≡◌, ◌<◌};

mod banks;
mod files;
mod groves;
mod names;
mod queues;
mod shelves;
mod sinks;
mod sources;
mod streams;

use dsde_base::Steps;
use dsde_values::{Memory, Text};
use std::alloc::Global;
use std::marker::Brand;
use std::mem::size_of;
use std::sync::ledger::{Blank, Ledger};

/// The bytes as a list.
fn text(alloc: Global, bytes: &[u8]) -> Result<Text, Memory> {
    Text::from_slice(alloc, bytes)
}

/// Whether what counts its looks is as it should, and such a count takes no bytes.
fn counted<L: Ledger>(alloc: Global, blank: Blank) -> [bool; 4]
    requires name { blank.name ≡ L.name }
    requires parts { blank.parts ≡ L.parts }
    requires backed { 0 < blank.parts }
{
    let mut looks = Steps::<L>::new(blank);
    looks.tick();
    [
        size_of::<Steps<L>>() == 0,
        banks::a_slot_is_used_again(alloc, &mut looks),
        banks::thousands_are_kept(alloc, &mut looks),
        groves::parts_are_found(alloc, &mut looks),
    ]
}

#[test]
fn handles_find_what_they_should(rt: HostRuntime) {
    assert_eq!(rt; counted::<Brand>(rt.alloc(), Blank::new(1)), [true; 4]);
}

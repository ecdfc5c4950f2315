//! Inboxes: what comes to one target.

ghost use Rattle.std.specs.Prelude.{◌≡◌, [], ◌∷◌, ◌++◌, map, IfOk};
ghost use Rattle.dsde_core_parcels.specs.Inboxes.{lot_of, put_lot, put_lots, with_get};
ghost use Rattle.dsde_core_parcels.specs.declared.inbox.Get.{Get};

use crate::Parcel;
use dsde_bank::Handle;
use dsde_lists::Memory;
use dsde_values::{Seq, Values};
use std::alloc::Global;

/// What comes to a port.
#[derive(Drop)]
pub struct Get {
    pub port: u32,
    pub values: Values,
}

/// What comes to a target: nothing for a port that is not named.
#[derive(Drop)]
pub struct Inbox {
    pub target: Handle,
    pub gets: Seq<Get>,
}

/// The last inbox, if it is that of a target, or else a new one.
fn take_last(alloc: Global, inboxes: &mut Seq<Inbox>, target: Handle) -> Result<Inbox, Memory>
    ensures { IfOk result (λ inbox. (get : Get) → inboxes.new ++ with_get inbox get ∷ [] ≡ put_lot inboxes.old (record { target = target; get = get })) }
{
    let Some(last) = inboxes.pop() else {
        return Ok(Inbox {
            target,
            gets: Seq::new(alloc),
        });
    };
    if last.target.birth == target.birth {
        return Ok(last);
    }
    inboxes.push(last)?;
    Ok(Inbox {
        target,
        gets: Seq::new(alloc),
    })
}

/// Parcels target by target, where they stand in the order of their targets.
pub fn inboxes(alloc: Global, parcels: Seq<Parcel>) -> Result<Seq<Inbox>, Memory>
    ensures { IfOk result (λ all. all ≡ put_lots [] (map lot_of parcels)) }
{
    let mut all: Seq<Inbox> = Seq::new(alloc);
    for parcel in parcels.into_vec() {
        let get = Get {
            port: parcel.port,
            values: parcel.values,
        };
        let mut inbox = take_last(alloc, &mut all, parcel.target)?;
        inbox.gets.push(get)?;
        all.push(inbox)?;
    }
    Ok(all)
}

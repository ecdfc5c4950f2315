//! A component that lies in a grove, compared with an entry.

ghost use Rattle.std.specs.Prelude.{◌≡◌, ◌+◌, ◌≤◌};
ghost use Rattle.dsde_core_flat.specs.given.grove.Grove.{value_of};
ghost use Rattle.dsde_core_moves.specs.Compared.{is_as, is_first_entry, is_first_kid, lies_as, stays_as};

use dsde_bank::Handle;
use dsde_base::Steps;
use dsde_core_flat::Spot;
use dsde_core_flat::given::grove::Grove;
use dsde_language::ModelId;
use dsde_routes_wiring::WiredKid;
use dsde_routes_wiring::given::structure::Entry;
use dsde_routes_wiring::given::values_equality::are_same;
use dsde_values::Value;
use std::sync::ledger::Ledger;

/// Whether a model is an entry's, and the entry is soft or has these arguments.
fn is_as(model: ModelId, args: &[Value], entry: &Entry) -> bool
    ensures { result ≡ is_as model args.now entry.now }
{
    model.0 == entry.model.0 && (entry.soft || are_same(args, entry.args.as_slice()))
}

/// Whether what lies under a handle is as an entry is. Counts at most 2 looks.
fn lies_as<L: Ledger>(
    grove: &Grove<Spot>,
    handle: Handle,
    entry: &Entry,
    looks: &mut Steps<L>,
) -> bool
    ensures value { result ≡ lies_as (value_of grove.now handle) entry.now }
    ensures ticks { looks.new ≤ looks.old + 2 }
{
    match grove.get(handle, looks) {
        Some(Spot::Leaf(leaf)) => is_as(leaf.model, leaf.args.as_slice(), entry),
        Some(Spot::Net { model, args }) => is_as(*model, args.as_slice(), entry),
        None => false,
    }
}

/// Whether a component has an entry's name and is as it is. Counts at most 2 looks.
fn stays_as<L: Ledger>(
    grove: &Grove<Spot>,
    kid: &WiredKid,
    entry: &Entry,
    looks: &mut Steps<L>,
) -> bool
    ensures value { result ≡ stays_as grove.now kid.now entry.now }
    ensures ticks { looks.new ≤ looks.old + 2 }
{
    if kid.name.is_same(&entry.name) {
        lies_as(grove, kid.handle, entry, looks)
    } else {
        false
    }
}

/// Whether a component stays as the first of these entries. Counts at most 2 looks.
pub(crate) fn is_first_entry<L: Ledger>(
    grove: &Grove<Spot>,
    kid: &WiredKid,
    entries: &[Entry],
    looks: &mut Steps<L>,
) -> bool
    ensures value { result ≡ is_first_entry grove.now kid.now entries.now }
    ensures ticks { looks.new ≤ looks.old + 2 }
{
    match entries.first() {
        Some(entry) => stays_as(grove, kid, entry, looks),
        None => false,
    }
}

/// Whether the first of these components stays as an entry. Counts at most 2 looks.
pub(crate) fn is_first_kid<L: Ledger>(
    grove: &Grove<Spot>,
    kids: &[WiredKid],
    entry: &Entry,
    looks: &mut Steps<L>,
) -> bool
    ensures value { result ≡ is_first_kid grove.now kids.now entry.now }
    ensures ticks { looks.new ≤ looks.old + 2 }
{
    match kids.first() {
        Some(kid) => stays_as(grove, kid, entry, looks),
        None => false,
    }
}

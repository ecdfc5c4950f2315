//! Entries and components from a name on.

ghost use Rattle.std.specs.Prelude.{◌≡◌};
ghost use Rattle.std.specs.Ordering.{is_lt};
ghost use Rattle.dsde_values.specs.Path.{name_cmp};
ghost use Rattle.dsde_sim_changing.specs.Heads.{from_name};
ghost use Rattle.dsde_core_moves.specs.Compared.{kids_from};

use dsde_routes_wiring::WiredKid;
use dsde_routes_wiring::given::structure::Entry;
use dsde_values::Name;

/// Whether a name stands before another one. Most are the same, which is seen sooner than their order.
fn is_before(name: &Name, other: &Name) -> bool
    ensures { result ≡ is_lt (name_cmp name.now other.now) }
{
    if name.is_same(other) {
        false
    } else {
        name < other
    }
}

/// The entries from a name on.
pub(crate) fn from_name<'a>(entries: &'a [Entry], name: &Name) -> &'a [Entry]
    ensures { result.now ≡ from_name name.now entries.now }
{
    let mut rest = entries;
    while let Some((first, later)) = rest.split_first() {
        if !is_before(&first.name, name) {
            break;
        }
        rest = later;
    }
    rest
}

/// The components from a name on.
pub(crate) fn kids_from<'a>(kids: &'a [WiredKid], name: &Name) -> &'a [WiredKid]
    ensures { result.now ≡ kids_from name.now kids.now }
{
    let mut rest = kids;
    while let Some((first, later)) = rest.split_first() {
        if !is_before(&first.name, name) {
            break;
        }
        rest = later;
    }
    rest
}

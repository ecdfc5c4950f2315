//! Components found by name among those of a plan.

ghost use Rattle.std.specs.Prelude.{◌≡◌, IsTrue, true, is_some};
ghost use Rattle.dsde_executive_plans.specs.Layout.{is_there};
ghost use Rattle.dsde_executive_plans.specs.given.structure.Survival.{IsInOrder};

use dsde_executive_plans::given::structure::Entry;
use dsde_values::{Name, compare_names};

/// Whether the component of a name stands at an index.
fn stands_at(entries: &[Entry], index: usize, name: &Name) -> bool
    ensures { IsTrue result → is_there name.now entries.now ≡ true }
{
    match entries.get(index) {
        None => false,
        Some(entry) => entry.name.is_same(name),
    }
}

/// Where the component of a name stands.
pub(crate) fn index_of(entries: &[Entry], name: &Name) -> Option<usize>
    requires { IsInOrder entries.now }
    ensures { is_some result ≡ is_there name.now entries.now }
{
    match entries.binary_search_by(|entry| compare_names(&entry.name, name)) {
        Ok(index) => Some(index),
        Err(_) => None,
    }
}

/// Where the component of a name stands. It is looked for first where the last one was found, and
/// behind that.
pub(crate) fn index_near(entries: &[Entry], last: usize, name: &Name) -> Option<usize>
    requires { IsInOrder entries.now }
    ensures { is_some result ≡ is_there name.now entries.now }
{
    if stands_at(entries, last, name) {
        return Some(last);
    }
    let next = last.saturating_add(1);
    if stands_at(entries, next, name) {
        return Some(next);
    }
    index_of(entries, name)
}

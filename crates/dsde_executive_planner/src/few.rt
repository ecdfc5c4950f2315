//! A few components, kept as a list in the order of their names.

ghost use Rattle.std.specs.Prelude.{◌≡◌, true, false, Ok, IfOk, MatchOption};
ghost use Rattle.dsde_executive_plans.specs.Layout.{inserted, is_there};
ghost use Rattle.dsde_executive_plans.specs.given.structure.Survival.{IsInOrder};
ghost use Rattle.dsde_executive_planner.specs.Few.{IsFree};

use dsde_executive_plans::given::structure::Entry;
use dsde_lists::Memory;
use dsde_values::{Name, compare_names};
use std::cmp::Ordering;

/// Where a component of this name belongs, if there is none of it. It is looked for from the end on, where the
/// components of a structure mostly come.
fn place_of(entries: &[Entry], name: &Name) -> Option<usize>
    requires { IsInOrder entries.now }
    ensures { MatchOption result (is_there name.now entries.now ≡ true) (IsFree name.now entries.now) }
{
    let mut index = entries.len();
    while index > 0 {
        match compare_names(&entries[index - 1].name, name) {
            Ordering::Less => return Some(index),
            Ordering::Equal => return None,
            Ordering::Greater => index -= 1,
        }
    }
    Some(0)
}

/// Puts a component in where it belongs, and says whether there was one of its name, which then stays.
pub(crate) fn put_in_list(list: &mut Vec<Entry>, entry: Entry) -> Result<bool, Memory>
    requires { IsInOrder list.old.items }
    ensures taken { IfOk result (λ taken. taken ≡ is_there entry.name list.old.items) }
    ensures put { result ≡ Ok false → list.new.items ≡ inserted entry list.old.items }
    ensures order { IsInOrder list.new.items }
{
    match place_of(list.as_slice(), &entry.name) {
        None => Ok(true),
        Some(index) => {
            list.insert(index, entry)?;
            Ok(false)
        }
    }
}

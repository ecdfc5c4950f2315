//! Components found by name.

ghost use Rattle.std.specs.Prelude.{◌≡◌, MatchOption, IsTrue, false};
ghost use Rattle.std.specs.List.{AllByRecursion};
ghost use Rattle.dsde_routes_wiring.specs.given.structure.Survival.{AreInOrder};
ghost use Rattle.dsde_routes_wiring.specs.Places.{has_name};
ghost use Rattle.dsde_repair_walks.specs.Found.{InOrder, IsAt, IsOne, is_named};

use dsde_routes_wiring::WiredKid;
use dsde_values::{Name, compare_names, one_name};

/// Where the component of a name stands among those of a network.
pub(crate) fn index_of(kids: &[WiredKid], name: &Name) -> Option<usize>
    requires { InOrder kids.now }
    ensures { MatchOption result (AllByRecursion (λ kid. is_named name.now kid ≡ false) kids.now) (λ index. IsAt name.now kids.now index) }
{
    one_name();
    match kids.binary_search_by(|kid| compare_names(&kid.name, name)) {
        Ok(index) => Some(index),
        Err(_) => None,
    }
}

/// The component of a name.
pub fn find_kid<'k>(kids: &'k [WiredKid], name: &Name) -> Option<&'k WiredKid>
    requires { InOrder kids.now }
    ensures { MatchOption result (AllByRecursion (λ kid. is_named name.now kid ≡ false) kids.now) (λ kid. IsOne name.now kids.now kid.now) }
{
    match index_of(kids, name) {
        None => None,
        Some(index) => match kids.get(index) {
            None => None,
            Some(kid) => Some(kid),
        },
    }
}

/// Whether the component of a name stands at an index.
fn stands_at(kids: &[WiredKid], index: usize, name: &Name) -> bool
    requires { InOrder kids.now }
    ensures { IsTrue result → IsAt name.now kids.now index }
{
    one_name();
    match kids.get(index) {
        None => false,
        Some(kid) => kid.name.is_same(name),
    }
}

/// Where the component of a name stands. It is looked for first where the last one was found, and
/// behind that.
fn index_near(kids: &[WiredKid], last: usize, name: &Name) -> Option<usize>
    requires { InOrder kids.now }
    ensures { MatchOption result (AllByRecursion (λ kid. is_named name.now kid ≡ false) kids.now) (λ index. IsAt name.now kids.now index) }
{
    if stands_at(kids, last, name) {
        return Some(last);
    }
    let next = last.saturating_add(1);
    if stands_at(kids, next, name) {
        return Some(next);
    }
    index_of(kids, name)
}

/// The component of a name, whose index is kept in `last`, and looked at first: for names that mostly
/// come in their order.
pub fn find_near<'k>(kids: &'k [WiredKid], last: &mut usize, name: &Name) -> Option<&'k WiredKid>
    requires { InOrder kids.now }
    ensures { MatchOption result (AllByRecursion (λ kid. is_named name.now kid ≡ false) kids.now) (λ kid. IsOne name.now kids.now kid.now) }
{
    match index_near(kids, *last, name) {
        None => None,
        Some(index) => {
            *last = index;
            match kids.get(index) {
                None => None,
                Some(kid) => Some(kid),
            }
        }
    }
}

/// Whether the name of a component is among these.
pub fn is_among(kid: &WiredKid, names: &[Name]) -> bool
    requires { AreInOrder names.now }
    ensures { result ≡ has_name names.now kid.now }
{
    one_name();
    match names.binary_search_by(|name| compare_names(name, &kid.name)) {
        Ok(_) => true,
        Err(_) => false,
    }
}

//! The order of rows, and when two are the same.

ghost use Rattle.std.specs.Prelude.{◌≡◌, ◌↔◌, IsTrue};
ghost use Rattle.dsde_routes_table.specs.Order.{target_cmp};

use dsde_routes_wiring::Row;
use dsde_routes_wiring::given::structure::Via;
use dsde_routes_wiring::given::values_equality::are_same;
use dsde_values::{Value, equal};
use std::cmp::Ordering;

/// The order of two rows from one port: by the birth of the target, its port, and the rank.
pub fn compare_targets(one: &Row, other: &Row) -> Ordering
    ensures { result ≡ target_cmp one.now other.now }
{
    // Ranks are compared only where the targets are the same.
    match one.target.birth.cmp(&other.target.birth) {
        Ordering::Equal => one
            .target_port
            .cmp(&other.target_port)
            .then(one.rank.as_slice().cmp(other.rank.as_slice())),
        order => order,
    }
}

/// Whether two keys of translations are equal.
fn are_same_keys(one: &Option<Value>, other: &Option<Value>) -> bool
    ensures { IsTrue result ↔ (one.now ≡ other.now) }
{
    match (one, other) {
        (None, None) => true,
        (Some(value), Some(own)) => equal(value, own),
        _ => false,
    }
}

/// Whether two translations are equal.
fn are_same_vias(one: &Via, other: &Via) -> bool
    ensures { IsTrue result ↔ (one.now ≡ other.now) }
{
    one.id.0 == other.id.0 && are_same_keys(&one.key, &other.key)
}

/// Whether two lists of translations are equal.
fn are_same_chains(one: &[Via], other: &[Via]) -> bool
    ensures { IsTrue result ↔ (one.now ≡ other.now) }
{
    if one.len() != other.len() {
        return false;
    }
    let mut index = 0;
    while index < one.len() {
        if !are_same_vias(&one[index], &other[index]) {
            return false;
        }
        index += 1;
    }
    true
}

/// Whether two rows are equal.
pub fn are_same_rows(one: &Row, other: &Row) -> bool
    ensures { IsTrue result ↔ (one.now ≡ other.now) }
{
    one.source == other.source
        && one.source_port == other.source_port
        && one.target == other.target
        && one.target_port == other.target_port
        && one.rank.as_slice() == other.rank.as_slice()
        && are_same_chains(one.chain.as_slice(), other.chain.as_slice())
}

//! When the next turn is, and what comes with the head of the input.

ghost use Rattle.std.specs.Prelude.{◌≡◌};
ghost use Rattle.std.specs.Option.{option_copied};
ghost use Rattle.dsde_sim_tree.specs.Turn.{turn_time, is_taken, items_at};

use dsde_values::{Arrival, Item, When};

/// The time of the next turn: that of the next event or of the head of the input, the lesser if
/// there are both.
pub fn turn_time(next: When, head: Option<&Arrival>) -> Option<u64>
    ensures { result ≡ turn_time next (option_copied head.entry) }
{
    match (next, head) {
        (When::At(time), Some(head)) => Some(time.min(head.time)),
        (When::At(time), None) => Some(time),
        (When::Never, Some(head)) => Some(head.time),
        (When::Never, None) => None,
    }
}

/// Whether the head of the input is taken in the turn at this time.
pub fn is_taken(head: Option<&Arrival>, time: u64) -> bool
    ensures { result ≡ is_taken (option_copied head.entry) time }
{
    match head {
        Some(head) => head.time == time,
        None => false,
    }
}

/// The items of a head that is taken in the turn at this time.
pub fn items_at(head: Option<&Arrival>, time: u64) -> &[Item]
    ensures { result.now ≡ items_at (option_copied head.entry) time }
{
    match head {
        Some(head) if head.time == time => head.items.as_slice(),
        _ => &[],
    }
}

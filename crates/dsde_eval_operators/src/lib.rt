//! What operators and builtins make of values, and what a value holds, where it is of the wanted
//! kind.
#![tactic(auto)]

mod builtins;
mod held;
mod lists;
mod numbers;
mod operators;

pub use builtins::{of_one, of_three, of_two};
pub use held::{held_in, int_of, items_of, list_of, option_of, parts_in, parts_of, truth_of};
pub use lists::{first_items, indexed, item_in, later_items, listed, place_in};
pub use numbers::{reckoned, reckons};
pub use operators::{denied, negated, operated, operated_on, unwrapped};

//! Wirings: the links of all networks of a tree by the handles of its parts, and the rows that they
//! come to, one for each route from a source to a target.
#![tactic(auto)]

pub mod given;
mod index;
mod links;
mod row;
mod side;
mod small;
mod wiring;

pub use links::Links;
pub use row::{Passing, Row, Way};
pub use side::{Side, far, near};
pub use small::{Chain, Rank};
pub use wiring::{WiredKid, Wiring};

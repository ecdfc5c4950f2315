//! Tables of routes.
#![tactic(auto)]

mod bucket;
mod order;
mod place;
mod source;
mod table;

pub use table::RouteTable;

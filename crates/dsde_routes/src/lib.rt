//! Tables of routes built from wirings.
#![tactic(auto)]

mod carry;
mod comes;
mod flowing;
pub mod given;
mod ports;
mod sending;
mod sent;
mod ways;

pub use flowing::build;

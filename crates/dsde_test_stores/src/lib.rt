//! Tests of what is kept, as banks, schedules, trees and tables by name, and of the outside: sources, sinks and shelves.
#![tactic(auto)]

#[cfg(test)]
mod tests;

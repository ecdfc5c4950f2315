//! Whole runs of a system on the records of an input, as definitions; no code.
#![tactic(auto)]

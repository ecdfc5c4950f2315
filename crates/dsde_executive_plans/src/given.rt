//! What crates below give, for those above: each under the name of its crate.

/// Of `dsde_structure`.
pub mod structure {
    pub use dsde_structure::{End, Entry, Link, Part, Plan, Via};
}

//! What crates below give, for those above: each under the name of its crate.

/// Of `dsde_faults`.
pub mod faults {
    pub use dsde_faults::{FaultKind, Site};
}

/// Of `dsde_names`.
pub mod names {
    pub use dsde_names::{Entry, Named, Names};
}

//! What crates below give, for those above: each under the name of its crate.

/// Of `dsde_bank`.
pub mod bank {
    pub use dsde_bank::Handle;
}

/// Of `dsde_structure`.
pub mod structure {
    pub use dsde_structure::{End, Entry, Link, Part, Via};
}

/// Of `dsde_values_equality`.
pub mod values_equality {
    pub use dsde_structure::given::values_equality::are_same;
}

//! What crates below give, for those above: each under the name of its crate.

/// Of `dsde_check_tables`.
pub mod check_tables {
    pub use dsde_check_tables::{
        FamilyEntry, Known, Member, ModelEntry, PortEntry, copy_type, list_type, narrow,
        option_type,
    };
}

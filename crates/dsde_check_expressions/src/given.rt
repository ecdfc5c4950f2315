//! What crates below give, for those above: each under the name of its crate.

/// Of `dsde_check_scope`.
pub mod check_scope {
    pub use dsde_check_scope::{
        Around, CheckError, above, bind, body_names, close, copy_type, fields_all, is_same,
        item_type, narrow, params_all, ports_all, type_of, unbound, wanted, within,
    };
}

/// Of `dsde_check_tables`.
pub mod check_tables {
    pub use dsde_check_scope::given::check_tables::{
        Callee, FamilyEntry, Known, Local, PortEntry, Word, list_type, option_type,
    };
}

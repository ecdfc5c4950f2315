//! What crates below give, for those above: each under the name of its crate.

/// Of `dsde_check_scope`.
pub mod check_scope {
    pub use dsde_check_expressions::given::check_scope::{
        Around, CheckError, body_names, fields_all, narrow, params_all, ports_all, within,
    };
}

/// Of `dsde_check_tables`.
pub mod check_tables {
    pub use dsde_check_expressions::given::check_tables::{Known, Local, PortEntry, Word};
}

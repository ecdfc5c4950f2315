//! What crates below give, for those above: each under the name of its crate.

/// Of `dsde_routes_table`.
pub mod routes_table {
    pub use dsde_routes_table::RouteTable;
}

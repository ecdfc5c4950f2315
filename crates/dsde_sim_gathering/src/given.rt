//! What crates below give, for those above: each under the name of its crate.

/// Of `dsde_atomic`.
pub mod atomic {
    pub use dsde_atomic::{
        component_at, is_network, leaf_moved, network_at, network_in, network_out, next_event,
        output_leaf, ports_in, ports_out, start_leaf, top_args,
    };
}

/// Of `dsde_eval`.
pub mod eval {
    pub use dsde_atomic::given::eval::translate;
}

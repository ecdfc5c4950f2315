//! What crates below give, for those above: each under the name of its crate.

/// Of `dsde_cli_verdict`.
pub mod cli_verdict {
    pub use dsde_cli_verdict::{ReadModel, one_verdict, read_model};
}

/// Of `dsde_program`.
pub mod program {
    pub use dsde_trace::given::program::{Program, resolve};
}

/// Of `dsde_trace`.
pub mod trace {
    pub use dsde_trace::Pick;
}

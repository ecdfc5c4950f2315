//! What crates below give, for those above: each under the name of its crate.

/// Of `dsde_program_layout`.
pub mod program_layout {
    pub use dsde_program_expressions::given::program_layout::{
        infos_are_declared, model_laid, top_is_named,
    };
}

//! What crates below give, for those above: each under the name of its crate.

/// Of `dsde_lists`.
pub mod lists {
    pub use dsde_lists::{Boxed, Memory};
}

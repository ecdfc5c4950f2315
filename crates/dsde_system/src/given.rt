//! What crates below give, for those above: each under the name of its crate.

/// Of `dsde_executive_plans`.
pub mod executive_plans {
    pub use dsde_executive_plans::plans_are_in_order;
}

/// Of `dsde_formalism`.
pub mod formalism {
    pub use dsde_formalism::{Inputs, Leaf, MoveKind};
}

/// Of `dsde_sound_expressions`.
pub mod sound_expressions {
    pub use dsde_sound_expressions::{bodies_stand, tops_stand};
}

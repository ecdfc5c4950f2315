//! What crates below give, for those above: each under the name of its crate.

/// Of `dsde_formalism`.
pub mod formalism {
    pub use dsde_formalism::{Inputs, Leaf, MoveKind};
}

/// Of `dsde_structure`.
pub mod structure {
    pub use dsde_formalism::given::structure::{
        End, Entry, Given, Link, Part, Plan, Sources, Via, links_carry_in_order,
        survivors_keep_their_roles,
    };
}

/// Of `dsde_values_equality`.
pub mod values_equality {
    pub use dsde_formalism::given::values_equality::are_same;
}

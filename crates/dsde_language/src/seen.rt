//! What is seen of the parts of a model in which nothing is wrong, and the names that they see.

use dsde_values::{Text, Ty};

/// What is seen of an expression.
#[derive(Drop)]
pub struct Seen {
    pub ty: Ty,
    /// How many expressions stand in each other, the bodies of called functions counted; counted up
    /// to 513.
    pub height: u32,
    /// The place of the expression, which is the index of a token.
    pub at: u32,
}

/// What is seen of a type as it is written.
#[derive(Drop)]
pub struct TypeSeen {
    pub ty: Ty,
    /// How deep it is; counted up to 65.
    pub depth: u32,
}

/// What is seen of the arguments of a builtin.
#[derive(Drop)]
pub struct Fitted {
    /// What they say `T` is.
    pub ty: Ty,
    /// The height of the highest.
    pub height: u32,
}

/// What is seen of an end of a link.
#[derive(Drop)]
pub struct EndSeen {
    /// The type of its port.
    pub ty: Ty,
    /// The height of its index.
    pub height: u32,
    /// Whether it is the network's own.
    pub is_net: bool,
}

/// A name that is seen.
#[derive(Drop)]
pub struct Binding {
    pub name: Text,
    pub ty: Ty,
    pub kind: BindingKind,
}

/// Whether a name that is seen may be assigned to.
#[derive(Clone, Copy)]
pub enum BindingKind {
    Fixed,
    Var,
    /// A state variable, which some blocks may assign to.
    State,
}

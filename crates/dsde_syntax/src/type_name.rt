//! Types as they are written.

use crate::{Boxed, Id};

/// A type as it is written. The number is the place of its first token.
#[derive(Drop)]
pub enum TypeName {
    Int(u32),
    Bool(u32),
    /// An enum or a record.
    Named(Id),
    List(u32, Boxed<TypeName>),
    Opt(u32, Boxed<TypeName>),
}

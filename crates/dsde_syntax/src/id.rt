//! Identifiers in their places.

use crate::Word;

/// An identifier where it stands.
#[derive(Drop)]
pub struct Id {
    pub name: Word,
    /// The place of its token.
    pub at: u32,
}

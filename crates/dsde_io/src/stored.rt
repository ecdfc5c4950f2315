//! What stands on a shelf in memory under one name.

use dsde_values::Text;

/// Bytes under a name.
#[derive(Drop)]
pub struct Stored {
    pub name: Text,
    pub bytes: Text,
}

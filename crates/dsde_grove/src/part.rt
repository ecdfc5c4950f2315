//! One part of a grove, as the bank holds it.

use crate::kids::Kids;
use dsde_bank::Handle;
use dsde_values::Name;

/// The names of the kids stand here, so that one look finds a kid, and in the kid, so that a walk to
/// the root finds them with one look each.
#[derive(Drop)]
pub struct Part<T> {
    pub parent: Option<Handle>,
    pub name: Name,
    pub kids: Kids,
    pub value: T,
}

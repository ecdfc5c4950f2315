//! Links with their places.

use dsde_structure::Link;

/// A link, with the place of its word `link`.
#[derive(Drop)]
pub struct PlacedLink {
    pub at: u32,
    pub link: Link,
}

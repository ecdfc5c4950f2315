//! The links of a tree of networks, by the handles of its parts.

use crate::Links;
use dsde_bank::Handle;
use dsde_bank::given::lists::Boxed;
use dsde_values::{Name, Seq};

/// A network: its own handle, its executive's, its links, and its components in the order of their
/// names.
#[derive(Drop)]
#[cycle(wiring)]
pub struct Wiring {
    pub me: Handle,
    pub boss: Handle,
    pub links: Links,
    pub kids: Seq<WiredKid>,
}

/// A component of a network, and what is wired beneath it where it is a network itself.
#[derive(Drop)]
#[cycle(wiring)]
pub struct WiredKid {
    pub name: Name,
    pub handle: Handle,
    pub below: Option<Boxed<Wiring>>,
}

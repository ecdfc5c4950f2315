//! What links carry from.

use dsde_values::{Name, Seq, Values};

/// What the component with this name sends at one time: the values of each out port.
#[derive(Drop)]
pub struct Given {
    pub name: Name,
    pub ports: Seq<Values>,
}

/// What the links of a network carry from at one time, each a list of values for each port.
#[derive(Drop)]
pub struct Sources {
    /// What the network received at its in ports.
    pub net: Seq<Values>,
    /// What its executive sends.
    pub boss: Seq<Values>,
    /// What its components send.
    pub kids: Seq<Given>,
}

//! What the output phase of a turn comes to.

use crate::Mover;
use dsde_values::{Item, Seq, Values};

/// What the root sends in a turn: values port by port, or items for so many ports in the order in which they
/// are sent.
#[derive(Drop)]
pub enum Sent {
    Ports(Seq<Values>),
    Items { ports: u32, items: Seq<Item> },
}

/// Those who move in a turn, in path order. No list is made of one, or of nobody.
#[derive(Drop)]
pub enum Movers {
    One(Option<Mover>),
    Many(Seq<Mover>),
}

/// What the root sends in a turn, and those who move in it.
#[derive(Drop)]
pub struct Phase {
    pub sent: Sent,
    pub movers: Movers,
}

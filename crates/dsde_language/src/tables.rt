//! The tables of a model.

use crate::{Act, Node, ViaCode};
use dsde_values::Seq;

/// The tables of a model: its expressions, its blocks and its translations, each at its number.
#[derive(Drop)]
pub struct Tables {
    pub nodes: Seq<Node>,
    pub blocks: Seq<Seq<Act>>,
    pub vias: Seq<ViaCode>,
}

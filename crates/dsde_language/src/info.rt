//! What a model declares.

use dsde_values::{Field, Seq, Text};

/// What a model declares. The two lists of `boss` are those of a network's executive, and empty for
/// an atomic model.
#[derive(Drop)]
pub struct Info {
    pub name: Text,
    /// The place of `atomic` or `network`.
    pub at: u32,
    pub network: bool,
    pub params: Seq<Field>,
    pub ins: Seq<Field>,
    pub outs: Seq<Field>,
    pub boss_ins: Seq<Field>,
    pub boss_outs: Seq<Field>,
    /// The state variables of an atomic model, or of an executive.
    pub states: Seq<Field>,
}

//! What the grove holds of a part.

use dsde_language::ModelId;
use dsde_sim_tree::given::formalism::Leaf;
use dsde_values::Values;

/// An atomic component or an executive, or a network without what is beneath it.
#[derive(Drop)]
pub enum Spot {
    Leaf(Leaf),
    Net { model: ModelId, args: Values },
}

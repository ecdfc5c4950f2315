//! What holds of each model in which nothing is wrong.

ghost use Rattle.dsde_system.specs.given.sound_expressions.Laws.{BodiesStand, TopsStand};

use dsde_system::given::sound_expressions::{bodies_stand, tops_stand};

/// Laws: the parts of each body of a model stand at their numbers, and so do those of `top`.
pub(crate) fn laws()
    ensures bodies { BodiesStand }
    ensures tops { TopsStand }
{
    bodies_stand();
    tops_stand();
}

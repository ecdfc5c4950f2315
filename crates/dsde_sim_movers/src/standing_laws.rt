//! What starts and turns keep. Each law is a call that does nothing.

ghost use Rattle.dsde_sim_movers.specs.Stands.{StartStands, AdvanceStands};

use dsde_sim_tree::given::structure::survivors_keep_their_roles;
use dsde_values::one_name;

/// A tree that has started stands, and one that stands does so behind its next turn, where the head
/// of the input is not before its time: in a system whose advances lead on and whose structures name
/// their components in order.
pub fn trees_stand()
    ensures start { StartStands }
    ensures advance { AdvanceStands }
{
    survivors_keep_their_roles();
    one_name();
}

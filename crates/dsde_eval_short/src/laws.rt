//! What such an assignment means. The law is a call that does nothing.

ghost use Rattle.dsde_eval_short.specs.Changes.{AreChanges};

/// A law: an assignment of a list that is made anew from the list in the same slot is the change of
/// that list, behind the expressions beside it.
#[tactic(auto, using(crate::proofs::Changing::changes))]
pub fn changes_are_assignments()
    ensures { AreChanges }
{}

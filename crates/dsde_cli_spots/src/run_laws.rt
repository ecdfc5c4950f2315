//! Where a run tells a fault. The law is a call that does nothing.

ghost use Rattle.dsde_cli_spots.specs.SpottedRuns.{FaultsAreAtTokens};

use crate::faults_are_placed;

/// A law: a fault in which a run ends of a model that a text can spell is told at the line and the
/// column of one of the model's tokens, whatever the records are.
pub fn faults_are_at_tokens()
    ensures { FaultsAreAtTokens }
{
    faults_are_placed();
}

//! The lines and columns that notes tell. Each law is a call that does nothing.

ghost use Rattle.dsde_cli_spots.specs.Spotted.{FaultsAreAtTokens, RefusalsHaveLines};

use crate::faults_are_at_tokens;

/// A law: a fault in which a run of an accepted text ends is told at the line and the column, both
/// counted from 1, of the first byte of a token of the text, whatever the records are.
pub fn faults_are_told_at_tokens()
    ensures { FaultsAreAtTokens }
{
    faults_are_at_tokens();
}

/// A law: what a text is refused for is told at a line and a column, both counted from 1.
pub fn refusals_have_lines()
    ensures { RefusalsHaveLines }
{}

//! Where the faults of a program stand. The law is a call that does nothing.

ghost use Rattle.dsde_cli_spots.specs.Placed.{SystemsAreBelow, TopsAreBelow};

/// A law: in a model that a text can spell, each component, each network, and each fault that one of
/// them has stands at a token of the text.
pub fn faults_are_placed()
    ensures tops { TopsAreBelow }
    ensures systems { SystemsAreBelow }
{}

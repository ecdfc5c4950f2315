//! When the turns of an engine are. The law is a call that does nothing.

ghost use Rattle.dsde_cli.specs.InTime.{TurnsAreInTime};

/// A law: the next turn of an engine with a tree of the program is at a moment of a run, where the head of the input
/// comes at one.
pub fn turns_are_in_time()
    ensures { TurnsAreInTime }
{}

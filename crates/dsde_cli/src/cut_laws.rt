//! Runs that are cut. The law is a call that does nothing.

ghost use Rattle.dsde_cli.specs.LawCut.{RunsCanBeCut};
ghost use Rattle.dsde_cli.specs.CutTurns.{TurnsAreTaken};

/// A run of some turns and then of others is the run of all of them, where the first ended by its bound
/// or fell quiet and goes on for some turns: the records that it had not taken are found again behind those
/// that it had, with none before its time.
pub fn runs_can_be_cut()
    ensures { RunsCanBeCut }
{}

/// A turn is at the lesser of the time of the next event and of the head, and takes the head where it is at
/// that time.
pub fn turns_are_taken()
    ensures { TurnsAreTaken }
{}

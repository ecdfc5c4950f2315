//! Runs that are cut and go on from what was stored. Each law is a call that does nothing.

ghost use Rattle.dsde_cli.specs.Joined.{RunsAreTakenUp, StoredRunsAreTakenUp};

use crate::{images_are_said, runs_begin, runs_can_be_cut, runs_stand};
use dsde_run_free::given::image_rows::{images_are_restored, images_are_written, rows_are_right};

/// A law: where a run of an accepted model ends by its bound, or falls quiet and goes on for some turns, the
/// image of its last engine, of either version, is restored to that engine; and what that engine tells where it
/// goes on with the same input is the rest of what the run of all the turns tells.
pub fn runs_are_taken_up()
    ensures { RunsAreTakenUp }
{
    runs_begin();
    runs_can_be_cut();
    runs_stand();
    images_are_restored();
}

/// A law: the text that is stored of such a run, of at most 2^62 turns, is restored to that engine. The text of the
/// first run without its last line, and behind it that of the run which is taken up again, is the text of the run of
/// all the turns, whatever lines are kept.
pub fn stored_runs_are_taken_up()
    ensures { StoredRunsAreTakenUp }
{
    runs_are_taken_up();
    runs_stand();
    images_are_restored();
    images_are_written();
    rows_are_right();
    images_are_said();
}

//! Where runs begin and where they stand. Each law is a call that does nothing.

ghost use Rattle.dsde_cli.specs.Standing.{RunsBegin, RunsStand};

use crate::{models_name_parts, turns_are_in_time, turns_are_taken};
use dsde_input_records::records_come_in_order;
use dsde_run_free::given::sim_working::programs_lead_on;
use dsde_sim_movers::{room_is_kept, trees_are_named, trees_stand, turns_move_one_by_one};
use dsde_sound_runs::{engines_fit, inputs_arrive};

/// A law: an engine that starts has done no turn and taken nothing of the input, at time 0.
pub fn runs_begin()
    ensures { RunsBegin }
{}

/// A law: the engine with which a run of an accepted model ends by its bound or quiet has a tree of the
/// program, with no more parts than may be alive, that stands at the time of the last turn, a moment of a run;
/// it has done no more turns than were asked for, and taken no more records than it has done turns.
pub fn runs_stand()
    ensures { RunsStand }
{
    engines_fit();
    inputs_arrive();
    models_name_parts();
    programs_lead_on();
    records_come_in_order();
    room_is_kept();
    trees_are_named();
    trees_stand();
    turns_are_in_time();
    turns_are_taken();
    turns_move_one_by_one();
}

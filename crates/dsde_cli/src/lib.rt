//! The command line: what the program's words ask for, done over a shelf, a source and two sinks;
//! programs are run, in path order or in orders that are drawn, or taken up again, and their images
//! stored, each with the status that says how it ended. Beside it laws of runs: one that is cut
//! between two turns and goes on is the whole run, also where it was stored in between; each turn
//! delivers what links carry; and runs in drawn orders come to an end.
#![tactic(auto)]

mod big;
mod call;
mod check;
mod cut_laws;
mod delivery_laws;
mod drawn_runs;
mod free;
mod joined_laws;
mod laws;
mod load;
mod order_laws;
mod resume;
mod resumed_runs;
mod run;
mod said_laws;
mod save;
mod standing_laws;
mod time_laws;
mod whole_runs;

pub use call::dsde;
pub use cut_laws::{runs_can_be_cut, turns_are_taken};
pub use delivery_laws::{models_name_parts, runs_are_delivered, runs_are_their_turns};
pub use drawn_runs::run_drawn;
pub use dsde_cli_status::{Refusal, SaveFault, Status, What, Why, report};
pub use joined_laws::{runs_are_taken_up, stored_runs_are_taken_up};
pub use laws::cut_law;
pub use order_laws::drawn_runs_end;
pub use resumed_runs::resume_and_store;
pub use said_laws::images_are_said;
pub use standing_laws::{runs_begin, runs_stand};
pub use time_laws::turns_are_in_time;
pub use whole_runs::{run_and_store, status_by};

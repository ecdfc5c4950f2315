//! A fault in which a run ends is told at the line and the column of a token of the model's text.
//! Laws over definitions; no code.
#![tactic(auto)]

mod model_laws;
mod run_laws;
mod sound_laws;

pub use model_laws::{faults_are_told_at_tokens, refusals_have_lines};
pub use run_laws::faults_are_at_tokens;
pub use sound_laws::faults_are_placed;

//! The rows of a tree of simulators, as an image has them, which rows fit a program, and trees restored
//! from them: the texts of values, the names of models, and where parts stand. With the laws that the
//! images of the trees of a program are in order, may be written, and give the trees again.
#![tactic(auto)]

mod ends;
mod fit_laws;
pub mod given;
mod image_laws;
mod listing;
mod locations;
mod models;
mod parts;
mod reading;
mod text_laws;
mod walk;
mod writing;

pub use ends::RestoreEnd;
pub use fit_laws::{images_fit, left_are_last, only_images_fit};
pub use image_laws::{images_are_restored, images_are_written, rows_are_right};
pub use listing::list;
pub use locations::{is_at, location_of};
pub use models::{args_of, is_named, name_of, state_of};
pub use text_laws::{components_are_called, names_are_allowed, scripts_are_exact, texts_are_ascii};
pub use walk::restored_tree;
pub use writing::{are_written, texts};

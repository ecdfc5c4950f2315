//! Words of a line of a trace, read back: what a text is, if it is the text of such a thing.
#![tactic(auto)]

mod names;
mod passed;
mod settled;
mod words;

pub use names::{
    Ending, LineWord, ending_of, fault_kind_of, input_kind_of, line_word_of, move_kind_of, site_of,
};
pub use passed::passed_of;
pub use settled::settled_of;
pub use words::{behind, cut, is_executive, number_of, path_of, place_of};

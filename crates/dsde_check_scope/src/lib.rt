//! The small rules: names that are seen, types as they are written, and what is seen of a part.
#![tactic(auto)]

mod around;
mod error;
pub mod given;
mod headers;
mod names;
mod seeing;
mod written;

pub use around::Around;
pub use dsde_check_tables::{add_name, copy_type, depth_of, is_same, narrow};
pub use error::CheckError;
pub use headers::{body_names, fields_all, params_all, ports_all};
pub use names::{apart, bind, close, unbound};
pub use seeing::{above, held_type, item_type, seen_as, wanted, within};
pub use written::type_of;

//! What a run speaks of: texts and lists, values and their types, moments, arrivals, and the names
//! and paths of components.
#![tactic(auto)]

mod arrival;
mod decimal;
pub mod given;
mod lawful;
mod laws;
mod name;
mod path;
mod reading;
mod spelling;
mod types;
mod typing;
mod value;
mod when;

pub use arrival::{Arrival, Item};
pub use decimal::decimal_of;
pub use dsde_lists::{Boxed, Memory, Seq, Stem, Text};
pub use lawful::is_lawful;
pub use laws::{at_most_one_value_begins, one_name, orders_are_total};
pub use name::{Name, compare_names};
pub use path::{Path, ReadPath, compare_paths, read_path, write_path};
pub use reading::{ReadValue, read_fields, read_value};
pub use spelling::{write_fields, write_value};
pub use types::{Def, Field, Shape, Ty, Types};
pub use typing::has_type;
pub use value::{Value, Values, are_equal, copy_value, copy_values, equal};
pub use when::{LAST_MOMENT, When};

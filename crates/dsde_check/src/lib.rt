//! Every rule of the language, checked before a model runs.
#![tactic(auto)]

mod declared;
mod own;
mod whole;

pub use dsde_check_bodies::given::check_scope::CheckError;
pub use dsde_language::WrongKind;
pub use whole::check;

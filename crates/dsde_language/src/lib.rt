//! The language as definitions: the rules that a model keeps and the first wrong thing of one, what a
//! file declares, what a model is resolved to, with numbers for names and parts, and what
//! expressions, statements and functions mean, over names and over those tables. Types and
//! definitions alone; no code.
#![tactic(auto)]

mod act;
mod builtin;
mod code;
pub mod given;
mod ids;
mod info;
mod known;
mod make;
mod node;
mod node_ids;
mod operator;
mod seen;
mod signatures;
mod tables;
mod wrong;

pub use act::{Act, ActArm};
pub use builtin::{Gives, Part, Row};
pub use code::{Code, FnCode, ViaCode};
pub use ids::{ModelId, ViaId};
pub use info::Info;
pub use known::{Around, Known, Site};
pub use make::{Make, MakeArm, MakeEnd, MakeIndex, MakePart, MakeVia};
pub use node::{Node, NodeArm};
pub use node_ids::{BlockId, ExprId};
pub use operator::{Binary, Builtin};
pub use seen::{Binding, BindingKind, EndSeen, Fitted, Seen, TypeSeen};
pub use signatures::{Family, Func, ModelSig, Port, TypeWord};
pub use tables::Tables;
pub use wrong::{Wrong, WrongKind};

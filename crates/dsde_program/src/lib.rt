//! Programs: a model in which nothing is wrong, borrowed, with all that it is resolved to, read by
//! number.
#![tactic(auto)]

pub mod given;
mod made;
mod program;
mod whole;

pub use dsde_language::{
    Act, ActArm, Binary, BlockId, Builtin, Code, ExprId, FnCode, Info, Make, MakeArm, MakeEnd,
    MakeIndex, MakePart, MakeVia, ModelId, Node, NodeArm, ViaCode, ViaId,
};
pub use dsde_values::Field as Port;
pub use program::{Program, resolve};

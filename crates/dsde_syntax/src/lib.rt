//! The tokens of the language, the tree of a model, and a model's tokens and text.
#![tactic(auto)]

mod decl;
mod expr;
pub mod given;
mod id;
mod item;
mod print;
mod stmt;
mod token;
mod type_name;
mod writer;

pub use decl::{Body, Decl, Model, Phase, PortDecl, StateDecl, Typed};
pub use dsde_lists::{Boxed, Memory, Seq as Items, Text as Word};
pub use dsde_words::Key;
pub use expr::{Expr, ExprArm, FieldSet, SignTail, Suffix, Tail};
pub use id::Id;
pub use item::{Bracket, End, EndPart, Item, ItemArm, ViaKey, ViaPart};
pub use print::print_model;
pub use stmt::{Stmt, StmtArm};
pub use token::{GREATEST_NUMBER, Sign, Tok, Token};
pub use type_name::TypeName;
pub use writer::tokens_of;

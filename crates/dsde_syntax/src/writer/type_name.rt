//! The tokens of types.

ghost use Rattle.std.specs.Prelude.{◌++◌};
ghost use Rattle.dsde_syntax.specs.Writing.{Adds};
ghost use Rattle.dsde_syntax.specs.Grammar.{word, in_angles, type_tokens};

use super::Writer;
use crate::{Key, Sign, TypeName};

impl Writer {
    #[cycle(write_type)]
    pub(super) fn type_name(&mut self, ty: &TypeName)
        ensures { Adds self.old (type_tokens ty.now) self.new }
    {
        match ty {
            TypeName::Int(_) => self.word(Key::Int),
            TypeName::Bool(_) => self.word(Key::Bool),
            TypeName::Named(id) => self.id(id),
            TypeName::List(_, part) => self.word_of_type(Key::List, part.get()),
            TypeName::Opt(_, part) => self.word_of_type(Key::Opt, part.get()),
        }
    }

    /// A word and a type in angle brackets.
    #[cycle(write_type)]
    pub(super) fn word_of_type(&mut self, begins: Key, ty: &TypeName)
        ensures { Adds self.old (word begins ++ in_angles (type_tokens ty.now)) self.new }
    {
        self.word(begins);
        self.sign(Sign::Less);
        self.type_name(ty);
        self.sign(Sign::Greater);
    }
}

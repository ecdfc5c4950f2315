//! The tokens of a model.

ghost use Rattle.std.specs.Prelude.{◌≡◌, [], ◌∷◌, Some, IfOk};
ghost use Rattle.dsde_syntax.specs.Writing.{Adds};
ghost use Rattle.dsde_syntax.specs.Grammar.{word as word_tokens, mark, id_tokens, tokens_of};
ghost use Rattle.dsde_syntax.specs.declared.token.Tok.TheVariants as tok;

mod decl;
mod expr;
mod item;
mod stmt;
mod type_name;

use crate::{Id, Items, Key, Memory, Model as ModelTree, Sign, Tok, Word};
use std::alloc::Global;
use std::marker::Model;

/// The tokens of a model, in the order of its text.
pub fn tokens_of(alloc: Global, model: &ModelTree) -> Result<Items<Tok>, Memory>
    ensures { IfOk result (λ tokens. tokens ≡ tokens_of model.now) }
{
    let mut writer = Writer::new(alloc);
    writer.decls(model.decls.as_slice());
    writer.finish()
}

/// Writes the tokens of a model's parts, one part after another, and remembers whether memory ran
/// out on the way.
#[derive(Drop)]
struct Writer {
    alloc: Global,
    tokens: Items<Tok>,
    /// Whether a token found no memory.
    lost: bool,
}

impl Model for Writer {
    ghost use Rattle.std.specs.Prelude.{List, Option};
    ghost use Rattle.dsde_syntax.specs.declared.token.Tok.{Tok};
    ghost use Rattle.dsde_syntax.specs.Writing.{written};

    ghost Value = { Option (List Tok) };

    ghost view = { λ writer. written writer.lost writer.tokens };
}

impl Writer {
    fn new(alloc: Global) -> Writer
        ensures { result ≡ Some [] }
    {
        Writer {
            alloc,
            tokens: Items::new(alloc),
            lost: false,
        }
    }

    fn finish(self) -> Result<Items<Tok>, Memory>
        ensures { IfOk result (λ tokens. self ≡ Some tokens) }
    {
        let Writer { tokens, lost, .. } = self;
        if lost { Err(Memory) } else { Ok(tokens) }
    }

    fn push(&mut self, tok: Tok)
        ensures { Adds self.old (tok ∷ []) self.new }
    {
        match self.tokens.push(tok) {
            Ok(()) => {}
            Err(_) => self.lost = true,
        }
    }

    fn word(&mut self, word: Key)
        ensures { Adds self.old (word_tokens word) self.new }
    {
        self.push(Tok::Key(word));
    }

    fn sign(&mut self, sign: Sign)
        ensures { Adds self.old (mark sign) self.new }
    {
        self.push(Tok::Sign(sign));
    }

    fn id(&mut self, id: &Id)
        ensures { Adds self.old (id_tokens id.now) self.new }
    {
        match Word::from_slice(self.alloc, id.name.as_slice()) {
            Ok(name) => self.push(Tok::Ident(name)),
            Err(_) => self.lost = true,
        }
    }
}

//! Names where they stand in a text.

ghost use Rattle.std.specs.Prelude.{◌≡◌, OnOk};
ghost use Rattle.dsde_language.specs.RuleTables.{added, with_name};

use dsde_language::given::names::{Named, Names};
use dsde_syntax::given::lists::Memory;
use std::marker::Model;

/// A name where it stands in a text. Contracts see it as the name.
#[derive(Drop)]
pub struct Word<'m> {
    name: &'m [u8],
}

impl<'m> Model for Word<'m> {
    ghost use Rattle.std.specs.Prelude.{List, ℕ};

    ghost Value = { List ℕ };

    ghost view = { λ word. word.name.now };
}

impl<'m> Word<'m> {
    /// The name of these bytes.
    pub fn of(name: &'m [u8]) -> Word<'m>
        ensures { result ≡ name.now }
    {
        Word { name }
    }
}

impl<'m> Named for Word<'m> {
    ghost name = { λ word. word };

    fn name(&self) -> &[u8] {
        self.name
    }
}

/// Adds a name, unless it is among them.
pub fn add_name<'m>(names: &mut Names<Word<'m>>, name: &'m [u8]) -> Result<(), Memory>
    ensures { OnOk result (names.new ≡ with_name names.old name.now) }
{
    put(names, Word::of(name))
}

/// Adds an item, unless one has its name.
pub(crate) fn put<T: Named + Drop>(items: &mut Names<T>, item: T) -> Result<(), Memory>
    ensures { OnOk result (items.new ≡ added T.name items.old item) }
{
    match items.insert(item) {
        Ok(_) => Ok(()),
        Err(end) => Err(end),
    }
}

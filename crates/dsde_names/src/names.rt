//! Tables of items that are found by name.

ghost use Rattle.std.specs.Prelude.{◌≡◌, ◌<◌, [], ◌∷◌, ◌++◌, not, false, if◌then◌else◌, is_some, length, take, slice_get, IfOk, OnOk, OnErr};
ghost use Rattle.std.specs.Option.{option_copied, option_map};
ghost use Rattle.dsde_names.specs.Table.{place_of, named, is_among};

use crate::Named;
use crate::entry::{Entry, Query};
use dsde_lists::Memory;
use indexmap::IndexSet;
use std::alloc::Global;
use std::marker::Model;

/// Items in the order in which they came, no two of one name, each found by its name in one look-up.
#[derive(Drop)]
pub struct Names<T: Named> {
    entries: IndexSet<Entry<T>>,
}

impl<T: Named> Model for Names<T> {
    ghost use Rattle.std.specs.Prelude.{List};
    ghost use Rattle.std.specs.Coded.{coded_list};

    ghost Value = { List T };

    ghost coded = { coded_list T.code };

    ghost view = { λ names. names.entries.keys };
}

impl<T: Named> Names<T> {
    /// No items, which take no memory yet.
    pub fn new(alloc: Global) -> Names<T>
        ensures { result ≡ [] }
    {
        Names {
            entries: IndexSet::new(alloc),
        }
    }

    /// How many items there are, which is the number of the next one.
    pub fn len(&self) -> usize
        ensures { result ≡ length self.now }
    {
        self.entries.len()
    }

    /// The number of the item with a name, counted from 0; `None` exactly where none has it.
    pub fn number_of(&self, name: &[u8]) -> Option<usize>
        ensures number { result ≡ place_of T.name self.now name.now }
        ensures found { is_some result ≡ is_among T.name self.now name.now }
    {
        self.entries.get_index_of(Query { name })
    }

    /// Whether there is an item with a name.
    pub fn has(&self, name: &[u8]) -> bool
        ensures { result ≡ is_among T.name self.now name.now }
    {
        self.entries.contains(Query { name })
    }

    /// The item with a name; `None` exactly where none has it.
    pub fn get(&self, name: &[u8]) -> Option<&T>
        ensures item { option_copied result ≡ named T.name self.now name.now }
        ensures found { is_some result ≡ is_among T.name self.now name.now }
    {
        match self.entries.get_full(Query { name }) {
            Some((_, entry)) => Some(entry.get()),
            None => None,
        }
    }

    /// The item with a name, and its number, counted from 0.
    pub fn get_full(&self, name: &[u8]) -> Option<(usize, &T)>
        ensures number { option_map (λ found. found.0) result ≡ place_of T.name self.now name.now }
        ensures item { option_map (λ found. found.1.now) result ≡ named T.name self.now name.now }
        ensures found { is_some result ≡ is_among T.name self.now name.now }
    {
        match self.entries.get_full(Query { name }) {
            Some((number, entry)) => Some((number, entry.get())),
            None => None,
        }
    }

    /// The item with a number, counted from 0; `None` exactly where there are not as many.
    pub fn at(&self, number: usize) -> Option<&T>
        ensures { option_copied result ≡ slice_get self.now number }
    {
        match self.entries.get_index(number) {
            Some(entry) => Some(entry.get()),
            None => None,
        }
    }

    /// The items, in their order.
    pub fn as_slice(&self) -> &[Entry<T>]
        ensures { result.now ≡ self.now }
    {
        self.entries.as_slice()
    }
}

impl<T: Named + Drop> Names<T> {
    /// Adds an item at the end, unless there is one with its name, and says whether it did.
    /// Without memory the table stays as it was.
    pub fn insert(&mut self, item: T) -> Result<bool, Memory>
        ensures added { IfOk result (λ added. added ≡ not (is_among T.name self.old (T.name item))) }
        ensures ok { OnOk result (self.new ≡ (if is_among T.name self.old (T.name item) then self.old else self.old ++ item ∷ [])) }
        ensures err { OnErr result (self.new ≡ self.old) }
    {
        Ok(self.entries.insert(Entry { item })?)
    }

    /// Adds an item at the end, where none has its name. Without memory the table stays as it was.
    pub fn push(&mut self, item: T) -> Result<(), Memory>
        requires { is_among T.name self.old (T.name item) ≡ false }
        ensures ok { OnOk result (self.new ≡ self.old ++ item ∷ []) }
        ensures err { OnErr result (self.new ≡ self.old) }
    {
        self.insert(item)?;
        Ok(())
    }

    /// Takes out all items but the first `len`, whose names are free again.
    pub fn truncate(&mut self, len: usize)
        ensures { self.new ≡ take len self.old }
    {
        self.entries.truncate(len);
    }
}

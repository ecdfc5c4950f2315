//! Items of a table, which are equal where their names are.

ghost use Rattle.std.specs.Prelude.{◌≡◌, [], ◌∷◌};
ghost use Rattle.std.proofs.Common.{sym};
ghost use Rattle.std.specs.Str.{bytes_eq};
ghost use Rattle.dsde_names.specs.Alike.{names_equivalence, names_partial, one_write, as_found};

use crate::Named;
use indexmap::Equivalent;
use std::hash::{Hash, Hasher};
use std::marker::Model;

/// An item in a table, which contracts see as the item. Two are equal where their names are.
#[derive(Drop)]
pub struct Entry<T> {
    pub(crate) item: T,
}

impl<T> Model for Entry<T> {
    ghost Value = { T };

    ghost coded = { T.code };

    ghost view = { λ entry. entry.item };
}

impl<T> Entry<T> {
    /// The item itself.
    pub fn get(&self) -> &T
        ensures { result.now ≡ self.now }
    {
        &self.item
    }
}

impl<T: Named> PartialEq for Entry<T> {
    ghost eq = { λ x y. bytes_eq (T.name y) (T.name x) };

    ghost laws = { names_partial T.name };

    fn eq(&self, other: &Self) -> bool {
        other.item.name() == self.item.name()
    }
}

impl<T: Named> Eq for Entry<T> {
    ghost laws = { names_equivalence T.name };
}

impl<T: Named> Hash for Entry<T> {
    ghost hash_input = { λ x. T.name x ∷ [] };

    ghost respects_eq = { λ x y same. sym (one_write (T.name y) (T.name x) same) };

    fn hash<H: Hasher>(&self, state: &mut H) {
        state.write(self.item.name());
    }
}

/// A name that is looked up.
#[derive(Clone, Copy, PartialEq, Eq)]
pub(crate) struct Query<'q> {
    pub(crate) name: &'q [u8],
}

impl<'q> Hash for Query<'q> {
    ghost hash_input = { λ q. q.name.now ∷ [] };

    ghost respects_eq = { λ x y. one_write x.name.now y.name.now };

    fn hash<H: Hasher>(&self, state: &mut H) {
        state.write(self.name);
    }
}

impl<'q, T: Named> Equivalent<Entry<T>> for Query<'q> {
    ghost equivalent = { λ q x. bytes_eq (T.name x) q.name.now };

    fn equivalent(&self, key: &Entry<T>) -> bool {
        key.item.name() == self.name
    }

    ghost respects_hash = { λ q x same. sym (one_write (T.name x) q.name.now same) };

    ghost respects_eq = { λ q x y. as_found (T.name x) (T.name y) q.name.now };
}

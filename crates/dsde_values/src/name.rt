//! The names of components.

ghost use Rattle.std.specs.Prelude.{◌≡◌, ◌↔◌, IsTrue, IfOk};
ghost use Rattle.std.proofs.Common.{rules, refl};
ghost use Rattle.std.specs.Cmp.{partial_equiv_from_equiv, partial_order_from_agreeing_total};
ghost use Rattle.std.specs.Cmp.Rules.{comparing};
ghost use Rattle.std.specs.Ordering.{as_partial_cmp, eq_by_cmp};
ghost use Rattle.dsde_values.specs.Path.{name_cmp, is_plain, is_executive};

use dsde_lists::{Memory, Stem};
use std::alloc::Global;
use std::cmp::Ordering;

/// A component's name: an identifier, or one with an index, as `m[3]`.
#[derive(Debug, Drop)]
pub struct Name {
    pub stem: Stem,
    /// At most 2^63 - 1.
    pub index: Option<u64>,
}

impl Name {
    /// A name equal to this one.
    pub fn copy(&self, alloc: Global) -> Result<Name, Memory>
        ensures { IfOk result (λ name. name ≡ self.now) }
    {
        Ok(Name {
            stem: Stem::from_slice(alloc, self.stem.as_slice())?,
            index: self.index,
        })
    }

    /// Whether this is the same name.
    pub fn is_same(&self, other: &Name) -> bool
        ensures { IsTrue result ↔ (self.now ≡ other.now) }
    {
        self.index == other.index && self.stem.as_slice() == other.stem.as_slice()
    }

    /// Whether this is the name of an executive: `exec` without an index.
    pub fn is_executive(&self) -> bool
        ensures { result ≡ is_executive self.now }
    {
        self.is_plain(b"exec")
    }

    /// Whether the name is this word without an index.
    pub(crate) fn is_plain(&self, word: &[u8]) -> bool
        ensures { result ≡ is_plain word.now self.now }
    {
        self.stem.as_slice() == word && self.index.is_none()
    }
}

/// The order of names: the executive's, `exec`, after all others, and these by the bytes of the
/// identifier, then one without an index before one with, then by the index. `Equal` comes exactly
/// where the names are the same.
pub fn compare_names(name: &Name, other: &Name) -> Ordering
    ensures order { result ≡ name_cmp name.now other.now }
    ensures equal { (result ≡ Ordering.Equal) ↔ (name.now ≡ other.now) }
{
    let executives = name.is_executive().cmp(&other.is_executive());
    let stems = name.stem.as_slice().cmp(other.stem.as_slice());
    executives.then(stems).then(name.index.cmp(&other.index))
}

impl PartialEq for Name {
    ghost eq = { eq_by_cmp name_cmp };

    ghost laws = { partial_equiv_from_equiv (Prim.search (comparing, rules)) };

    fn eq(&self, other: &Name) -> bool {
        compare_names(self, other) == Ordering::Equal
    }
}

impl Eq for Name {
    ghost laws = { Prim.search (comparing, rules) };
}

impl PartialOrd for Name {
    ghost partial_cmp = { as_partial_cmp name_cmp };

    ghost laws = { partial_order_from_agreeing_total name_cmp (Prim.search (comparing, rules)) (λ name other. refl) (λ name other. refl) };

    fn partial_cmp(&self, other: &Name) -> Option<Ordering> {
        Some(compare_names(self, other))
    }
}

impl Ord for Name {
    ghost cmp = { name_cmp };

    ghost total = { Prim.search (comparing, rules) };

    ghost matches_partial_cmp = { λ name other. refl };

    ghost matches_eq = { λ name other. refl };

    fn cmp(&self, other: &Name) -> Ordering {
        compare_names(self, other)
    }
}

//! The kids of one part, by name.

ghost use Rattle.std.specs.Prelude.{◌≡◌, ◌≢◌, ◌+◌, ◌++◌, ◌≤◌, [], length, map, All, Contains, MatchOption, OnOk, OnErr};
ghost use Rattle.dsde_grove.specs.Part.{Puts, Forgets};

use dsde_bank::{Batch, Handle};
use dsde_lists::Memory;
use dsde_values::Name;
use std::alloc::Global;
use std::collections::BTreeMap;
use std::marker::Model;

/// Handles under names that differ, so that what is done to one of them costs in step with the
/// logarithm of their number.
#[derive(Drop)]
pub struct Kids {
    by_name: BTreeMap<Name, Handle>,
}

impl Model for Kids {
    ghost use Rattle.std.specs.Prelude.{List, map};
    ghost use Rattle.std.specs.Coded.{coded_list};
    ghost use Rattle.std.specs.BTreeMap.{IsOrdered};
    ghost use Rattle.dsde_values.specs.Path.{name_cmp};
    ghost use Rattle.dsde_grove.specs.Part.{Kid, kid_code, kid_of};

    ghost Value = { List Kid };

    ghost coded = { coded_list kid_code };

    ghost view = { λ kids. map kid_of kids.by_name.entries };

    ghost invariant = { λ kids. IsOrdered name_cmp kids.by_name };
}

impl Kids {
    /// No kids, which take no memory yet.
    pub fn new(alloc: Global) -> Kids
        ensures { result ≡ [] }
    {
        Kids {
            by_name: BTreeMap::new(alloc),
        }
    }

    /// The kid of this name.
    pub fn find(&self, name: &Name) -> Option<Handle>
        ensures { MatchOption result (All (λ kid. kid.name ≢ name.now) self.now) (λ handle. Contains self.now record { name = name.now; handle = handle }) }
    {
        self.by_name.get(name).copied()
    }

    /// Puts a kid in, in the place of the one of its name. Only a new name needs memory; without it
    /// the kids stay as they were.
    pub fn put(&mut self, name: Name, handle: Handle) -> Result<(), Memory>
        ensures put { OnOk result (Puts record { name = name; handle = handle } self.old self.new) }
        ensures kept { OnErr result (self.new ≡ self.old) }
        ensures free { OnErr result (All (λ kid. kid.name ≢ name) self.old) }
    {
        match self.by_name.insert(name, handle) {
            Ok(_) => Ok(()),
            Err(_) => Err(Memory),
        }
    }

    /// Drops the kid of this name.
    pub fn forget(&mut self, name: &Name)
        ensures { Forgets name.now self.old self.new }
    {
        self.by_name.remove(name);
    }

    /// Adds the handles of all kids to a work list.
    pub fn push_to(&self, work: &mut Batch<Handle>)
        requires { length self.now ≤ work.old.spare }
        ensures items { work.new.items ≡ work.old.items ++ map (λ kid. kid.handle) self.now }
        ensures spare { work.new.spare + length self.now ≡ work.old.spare }
    {
        for handle in self.by_name.values() {
            work.push_reserved(*handle);
        }
    }
}

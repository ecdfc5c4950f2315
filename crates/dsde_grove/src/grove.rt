//! A tree of live parts.

ghost use Rattle.std.specs.Prelude.{◌≡◌, ◌+◌, ◌*◌, ◌^◌, ◌<◌, ◌≤◌, ◌↔◌, IfOk, IfErr, IfSome, OnErr, IsNone, IfNone, OnSome, IsSome, is_some, unwrap_or};
ghost use Rattle.std.specs.Option.{option_copied, option_copied_mut};
ghost use Rattle.std.specs.FinMap as map;
ghost use Rattle.std.specs.Borrow.{Lends, LendsIf, sem};
ghost use Rattle.dsde_bank.specs.declared.handle.Handle.{Handle};
ghost use Rattle.dsde_grove.specs.Grove.{spot, value_of, path_of, depth_of, with_value, root_spot, parent_of, IsAbove, IsKid, IsTree, IsGone, Grows, DropsSubtree};
ghost use Rattle.dsde_grove.specs.contracts.grove.Grove.{the_row};

use crate::growth::{link, make_room, unlink};
use crate::kids::Kids;
use crate::part::Part;
use crate::subtree::take_all;
use dsde_bank::{Bank, Batch, Handle};
use dsde_base::Steps;
use dsde_lists::Memory;
use dsde_values::{Name, Path, Seq, Stem};
use std::alloc::Global;
use std::marker::{Brand, Model};
use std::sync::ledger::{Blank, Ledger};

/// A tree of live handles with names and values. A handle of a part that was dropped finds nothing
/// ever again.
#[derive(Drop)]
pub struct Grove<T> {
    alloc: Global,
    bank: Bank<Part<T>>,
    // Empty between calls. Its room is at least the number of parts, so that a drop needs no memory.
    work: Batch<Handle>,
}

/// Why a part did not grow.
#[derive(Clone, Copy)]
pub enum GrowEnd {
    /// The parent is not live.
    Stale,
    /// The parent has a child of that name.
    Taken,
    Memory,
}

impl<T> Model for Grove<T> {
    ghost use Rattle.dsde_grove.specs.Grove.{Grove as Tree, grove_code};

    ghost Value = { Tree T };

    ghost coded = { grove_code T.code };

    ghost use Rattle.dsde_grove.specs.Inside.{grove_of, IsSound};

    ghost view = { λ grove. grove_of grove.bank };

    ghost invariant = { λ grove. IsSound grove.bank grove.work };
}

impl<T: Drop> Grove<T> {
    /// A tree of one part, named `root`, whose birth is 0, with its handle.
    pub fn new(alloc: Global, root: T) -> Result<(Grove<T>, Handle), Memory>
        ensures birth { IfOk result (λ made. made.1.birth ≡ 0) }
        ensures parts { IfOk result (λ made. made.0.parts ≡ map.insert map.empty 0 (root_spot made.1 root)) }
        ensures next { IfOk result (λ made. made.0.next_birth ≡ 1) }
        ensures tree { IfOk result (λ made. IsTree made.0) }
    {
        Self::plant::<Brand>(alloc, root, Blank::new(1))
    }

    /// `new` for a caller that has a ledger for the looks, which are counted nowhere.
    fn plant<L: Ledger>(alloc: Global, root: T, blank: Blank) -> Result<(Grove<T>, Handle), Memory>
        requires name { blank.name ≡ L.name }
        requires parts { blank.parts ≡ L.parts }
        requires backed { 0 < blank.parts }
        ensures birth { IfOk result (λ made. made.1.birth ≡ 0) }
        ensures parts { IfOk result (λ made. made.0.parts ≡ map.insert map.empty 0 (root_spot made.1 root)) }
        ensures next { IfOk result (λ made. made.0.next_birth ≡ 1) }
        ensures tree { IfOk result (λ made. IsTree made.0) }
    {
        let mut looks = Steps::<L>::new(blank);
        let mut bank = Bank::new(alloc);
        let mut work = Batch::new(alloc);
        bank.reserve(1)?;
        work.reserve(1)?;
        let part = Part {
            parent: None,
            name: Name {
                stem: Stem::from_slice(alloc, b"root")?,
                index: None,
            },
            kids: Kids::new(alloc),
            value: root,
        };
        let handle = bank.insert_reserved(part, &mut looks);
        Ok((Grove { alloc, bank, work }, handle))
    }

    /// How many parts are live.
    pub fn live(&self) -> u64
        ensures count { result ≡ map.len self.now.parts }
        ensures tree { IsTree self.now }
    {
        self.bank.len() as u64
    }

    /// The birth of the next part.
    pub fn born(&self) -> u64
        ensures next { result ≡ self.now.next_birth }
        ensures tree { IsTree self.now }
    {
        self.bank.born()
    }

    /// The value of a part; `None` exactly where the handle is not live. Counts at most 2 looks.
    pub fn get<L: Ledger>(&self, handle: Handle, looks: &mut Steps<L>) -> Option<&T>
        ensures value { option_copied result ≡ value_of self.now handle }
        ensures tree { IsTree self.now }
        ensures ticks { looks.new ≤ looks.old + 2 }
    {
        match self.bank.get(handle, looks) {
            Some(part) => Some(&part.value),
            None => None,
        }
    }

    /// The value of a part, to be changed; `None` exactly as for `get`. Counts at most 2 looks.
    pub fn get_mut<L: Ledger>(&mut self, handle: Handle, looks: &mut Steps<L>) -> Option<&mut T>
        ensures* writes_back { sem 𝓛 (LendsIf (the_row T.row) T.row self.entry result (with_value self.old handle) self.old) }
        ensures value { option_copied_mut result ≡ value_of self.old handle }
        ensures tree { IsTree self.old }
        ensures written { (value : T) → IsTree (with_value self.old handle value) }
        ensures ticks { looks.new ≤ looks.old + 2 }
    {
        if self.is_live(handle, looks) {
            Some(self.value_mut(handle, looks))
        } else {
            None
        }
    }

    /// Whether a handle is live. Counts one look.
    fn is_live<L: Ledger>(&self, handle: Handle, looks: &mut Steps<L>) -> bool
        ensures value { result ≡ is_some (spot self.now handle) }
        ensures tree { IsTree self.now }
        ensures ticks { looks.new ≡ looks.old + 1 }
    {
        self.bank.get(handle, looks).is_some()
    }

    /// The value of a live part, to be changed. Counts one look.
    fn value_mut<L: Ledger>(&mut self, handle: Handle, looks: &mut Steps<L>) -> &mut T
        requires { IsSome (spot self.old handle) }
        ensures* writes_back { sem 𝓛 (Lends (the_row T.row) T.row self.entry result (with_value self.old handle)) }
        ensures value { value_of self.old handle ≡ Some result.now }
        ensures tree { IsTree self.old }
        ensures written { (value : T) → IsTree (with_value self.old handle value) }
        ensures ticks { looks.new ≡ looks.old + 1 }
    {
        let part = self.bank.get_mut(handle, looks).unwrap();
        &mut part.value
    }

    /// The child of a part that has this name; `None` exactly where the handle is not live or has no
    /// such child. Counts at most 2 looks.
    pub fn child<L: Ledger>(
        &self,
        handle: Handle,
        name: &Name,
        looks: &mut Steps<L>,
    ) -> Option<Handle>
        ensures child { (kid : Handle) → (result ≡ Some kid) ↔ IsKid self.now handle name.now kid }
        ensures ticks { looks.new ≤ looks.old + 2 }
    {
        match self.look_for(handle, name, looks) {
            Some(kid) => kid,
            None => None,
        }
    }

    /// Whether a handle is live, and then its child of that name. Counts one look.
    fn look_for<L: Ledger>(
        &self,
        handle: Handle,
        name: &Name,
        looks: &mut Steps<L>,
    ) -> Option<Option<Handle>>
        ensures live { is_some result ≡ is_some (spot self.now handle) }
        ensures child { (kid : Handle) → (result ≡ Some (Some kid)) ↔ IsKid self.now handle name.now kid }
        ensures ticks { looks.new ≡ looks.old + 1 }
    {
        match self.bank.get(handle, looks) {
            Some(part) => Some(part.kids.find(name)),
            None => None,
        }
    }

    /// The path of a part, from the root on; `None` exactly where the handle is not live. Counts at
    /// most one look for each name, and one more.
    pub fn path_of<L: Ledger>(
        &self,
        handle: Handle,
        looks: &mut Steps<L>,
    ) -> Result<Option<Path>, Memory>
        ensures path { IfOk result (λ path. path ≡ path_of self.now handle) }
        ensures ticks { looks.new ≤ looks.old + depth_of self.now handle + 1 }
    {
        if !self.is_live(handle, looks) {
            return Ok(None);
        }
        let mut names = Vec::new(self.alloc);
        let mut at = Some(handle);
        while let Some(here) = at {
            let part = self.bank.get(here, looks).unwrap();
            names.push(part.name.copy(self.alloc)?)?;
            at = part.parent;
        }
        names.reverse();
        Ok(Some(Path {
            names: Seq::from_vec(names),
        }))
    }

    /// Adds a part of this name and value below a live one, under a handle that was never given
    /// before. A refusal hands the value back, drops the name and leaves the tree as it was. Counts
    /// at most 4 looks.
    pub fn grow<L: Ledger>(
        &mut self,
        parent: Handle,
        name: Name,
        value: T,
        looks: &mut Steps<L>,
    ) -> Result<Handle, (GrowEnd, T)>
        requires births { self.old.next_birth + 1 < 2 ^ 64 }
        ensures grown { IfOk result (Grows self.old self.new parent name value) }
        ensures stale { (result ≡ Err (GrowEnd.Stale, value)) ↔ (spot self.old parent ≡ None) }
        ensures taken { (result ≡ Err (GrowEnd.Taken, value)) ↔ ((kid : Handle) × IsKid self.old parent name kid) }
        ensures handed_back { IfErr result (λ refused. refused.1 ≡ value) }
        ensures refused { OnErr result (self.new ≡ self.old) }
        ensures tree { IsTree self.new }
        ensures fresh { IfOk result (λ kid. map.get self.old.parts kid.birth ≡ None) }
        ensures gone { (other : Handle) → IsGone self.old other → IsGone self.new other }
        ensures ticks { looks.new ≤ looks.old + 4 }
    {
        match self.look_for(parent, &name, looks) {
            None => return Err((GrowEnd::Stale, value)),
            Some(Some(_)) => return Err((GrowEnd::Taken, value)),
            Some(None) => {}
        }
        // One copy makes the place among the kids of the parent, the other finds it once the handle
        // is known, when nothing may fail any more.
        let Ok(listed) = name.copy(self.alloc) else {
            return Err((GrowEnd::Memory, value));
        };
        let Ok(room) = name.copy(self.alloc) else {
            return Err((GrowEnd::Memory, value));
        };
        match make_room(&mut self.bank, &mut self.work, parent, room, looks) {
            Ok(()) => {}
            Err(Memory) => return Err((GrowEnd::Memory, value)),
        }
        let part = Part {
            parent: Some(parent),
            name,
            kids: Kids::new(self.alloc),
            value,
        };
        let handle = self.bank.insert_reserved(part, looks);
        link(&mut self.bank, parent, listed, handle, looks);
        Ok(handle)
    }

    /// Takes out a part and all parts below it, and answers their number; `None` exactly where the
    /// handle is not live. Needs no memory. Counts at most 4 looks for each part, and 2 more.
    pub fn drop_subtree<L: Ledger>(&mut self, handle: Handle, looks: &mut Steps<L>) -> Option<u64>
        ensures none { IsNone result ↔ (spot self.old handle ≡ None) }
        ensures stale { IfNone result (self.new ≡ self.old) }
        ensures dropped { OnSome result (DropsSubtree self.old self.new handle) }
        ensures count { IfSome result (λ count. map.len self.new.parts + count ≡ map.len self.old.parts) }
        ensures tree { IsTree self.new }
        ensures gone { OnSome result ((other : Handle) → IsAbove (parent_of self.old) handle.birth other.birth → IsGone self.new other) }
        ensures stay_gone { (other : Handle) → IsGone self.old other → IsGone self.new other }
        ensures emptied { handle.birth ≡ 0 → OnSome result (self.new.parts ≡ map.empty) }
        ensures ticks { looks.new ≤ looks.old + 4 * unwrap_or result 0 + 2 }
    {
        let parent = match self.bank.get(handle, looks) {
            Some(part) => part.parent,
            None => return None,
        };
        let before = self.bank.len();
        let name = take_all(&mut self.bank, &mut self.work, handle, looks);
        unlink(&mut self.bank, parent, &name, looks);
        Some((before - self.bank.len()) as u64)
    }
}

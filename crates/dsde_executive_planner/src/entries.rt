//! The components that items have put into a structure, by name.

ghost use Rattle.std.specs.Prelude.{◌≡◌, [], false, length, Ok, IfOk, OnOk};
ghost use Rattle.std.specs.Prelude.{map as map_list};
ghost use Rattle.std.specs.BTreeMap.{IsOrdered};
ghost use Rattle.dsde_values.specs.Path.{name_cmp};
ghost use Rattle.dsde_executive_planner.specs.Entries.{entry_of};
ghost use Rattle.dsde_executive_plans.specs.Layout.{inserted, is_there};
ghost use Rattle.dsde_executive_plans.specs.given.structure.Survival.{IsInOrder};

use crate::few::put_in_list;
use crate::found::index_of;
use dsde_executive_plans::given::structure::Entry;
use dsde_language::ModelId;
use dsde_lists::Memory;
use dsde_values::{Name, Seq, Values, orders_are_total};
use std::alloc::Global;
use std::collections::BTreeMap;
use std::marker::Model;
use std::mem;

/// So many components are kept as a list: more are looked for in a map.
const MOST_FEW: usize = 32;

/// What stands under a name: a model, its arguments, and whether the component is soft.
#[derive(Drop)]
struct Chosen {
    model: ModelId,
    args: Values,
    soft: bool,
}

/// Components, few as a list and many in a map.
#[derive(Drop)]
enum Held {
    Few(Vec<Entry>),
    Many(BTreeMap<Name, Chosen>),
}

/// Components under names that differ, in the order of the names. To look one up and to put one in
/// costs in step with the logarithm of their number.
#[derive(Drop)]
pub(crate) struct Entries {
    alloc: Global,
    held: Held,
}

impl Model for Entries {
    ghost use Rattle.std.specs.Prelude.{List};
    ghost use Rattle.std.specs.Coded.{codes};
    ghost use Rattle.dsde_executive_plans.specs.given.structure.plan_Entry.{Entry};
    ghost use Rattle.dsde_executive_plans.specs.given.structure.contracts_plan_Entry as entry;
    ghost use Rattle.dsde_executive_planner.specs.Entries.{listed, IsHeld};

    ghost Value = { List Entry };

    ghost coded = { Prim.hlevel (codes, entry.the_row.coded) };

    ghost view = { λ entries. listed entries.held };

    ghost invariant = { λ entries. IsHeld entries.held };
}

impl Entries {
    /// No components, which take no memory yet.
    pub(crate) fn new(alloc: Global) -> Entries
        ensures { result ≡ [] }
    {
        Entries {
            alloc,
            held: Held::Few(Vec::new(alloc)),
        }
    }

    /// How many components there are.
    pub(crate) fn len(&self) -> usize
        ensures { result ≡ length self.now }
    {
        match &self.held {
            Held::Few(list) => list.len(),
            Held::Many(map) => map.len(),
        }
    }

    /// Whether there is a component of this name.
    pub(crate) fn has(&self, name: &Name) -> bool
        ensures { result ≡ is_there name.now self.now }
    {
        orders_are_total();
        match &self.held {
            Held::Few(list) => index_of(list.as_slice(), name).is_some(),
            Held::Many(map) => map.contains_key(name),
        }
    }

    /// Puts a component in, and says whether there was one of its name.
    pub(crate) fn put(&mut self, entry: Entry) -> Result<bool, Memory>
        ensures taken { IfOk result (λ taken. taken ≡ is_there entry.name self.old) }
        ensures put { result ≡ Ok false → self.new ≡ inserted entry self.old }
    {
        if self.len() == MOST_FEW {
            self.spread()?;
        }
        match &mut self.held {
            Held::Few(list) => put_in_list(list, entry),
            Held::Many(map) => put_in_map(map, entry),
        }
    }

    /// Puts components that are a list into a map.
    fn spread(&mut self) -> Result<(), Memory>
        ensures { OnOk result (self.new ≡ self.old) }
    {
        if let Held::Few(list) = &mut self.held {
            let list = mem::replace(list, Vec::new(self.alloc));
            self.held = Held::Many(mapped(self.alloc, list)?);
        }
        Ok(())
    }

    /// The components in the order of their names.
    pub(crate) fn into_seq(self, alloc: Global) -> Result<Seq<Entry>, Memory>
        ensures entries { IfOk result (λ entries. entries ≡ self) }
        ensures order { IfOk result (λ entries. IsInOrder entries) }
    {
        match self.held {
            Held::Few(list) => Ok(Seq::from_vec(list)),
            Held::Many(map) => listed(alloc, map),
        }
    }
}

/// Puts a component in, and says whether there was one of its name, whose place it took.
fn put_in_map(map: &mut BTreeMap<Name, Chosen>, entry: Entry) -> Result<bool, Memory>
    requires { IsOrdered name_cmp map.old }
    ensures taken { IfOk result (λ taken. taken ≡ is_there entry.name (map_list entry_of map.old.entries)) }
    ensures put { result ≡ Ok false → map_list entry_of map.new.entries ≡ inserted entry (map_list entry_of map.old.entries) }
    ensures order { IsOrdered name_cmp map.new }
{
    orders_are_total();
    let Entry {
        name,
        model,
        args,
        soft,
    } = entry;
    match map.insert(name, Chosen { model, args, soft }) {
        Ok(before) => Ok(before.is_some()),
        Err(_) => Err(Memory),
    }
}

/// A map of components that are in order.
fn mapped(alloc: Global, list: Vec<Entry>) -> Result<BTreeMap<Name, Chosen>, Memory>
    requires { IsInOrder list.items }
    ensures entries { IfOk result (λ map. map_list entry_of map.entries ≡ list.items) }
    ensures order { IfOk result (λ map. IsOrdered name_cmp map) }
{
    let mut map = BTreeMap::new(alloc);
    for entry in list {
        put_in_map(&mut map, entry)?;
    }
    Ok(map)
}

/// The components of a map in the order of their names.
fn listed(alloc: Global, map: BTreeMap<Name, Chosen>) -> Result<Seq<Entry>, Memory>
    requires { IsOrdered name_cmp map }
    ensures entries { IfOk result (λ entries. entries ≡ map_list entry_of map.entries) }
    ensures order { IfOk result (λ entries. IsInOrder entries) }
{
    let mut entries = Seq::with_room(alloc, map.len())?;
    for (name, Chosen { model, args, soft }) in map {
        entries.push(Entry {
            name,
            model,
            args,
            soft,
        })?;
    }
    Ok(entries)
}

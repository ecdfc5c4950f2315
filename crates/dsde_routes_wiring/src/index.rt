//! Numbers of links by the components at their ends.

ghost use Rattle.std.specs.Prelude.{◌≡◌, [], ◌∷◌, ◌++◌, if◌then◌else◌, IfOk, OnOk};
ghost use Rattle.dsde_values.specs.declared.name.Name.{Name};
ghost use Rattle.dsde_structure.specs.declared.plan.Part.TheVariants.{Kid};
ghost use Rattle.dsde_structure.specs.Gather.{is_part, is_same_name};
ghost use Rattle.dsde_routes_wiring.specs.Numbers.{IsIndex, numbers_named};

use crate::side::{Side, near};
use dsde_bank::given::lists::Memory;
use dsde_structure::{Link, Part};
use dsde_values::{Name, Seq, one_name};
use std::alloc::Global;
use std::collections::BTreeMap;

/// The numbers of the links of a network by the component at one of their ends.
#[derive(Drop)]
pub struct Index {
    kids: BTreeMap<Name, Seq<usize>>,
}

impl Index {
    /// The index of links by their ends on a side.
    pub fn of(alloc: Global, side: Side, links: &[Link]) -> Result<Index, Memory>
        ensures { IfOk result (IsIndex side links.now) }
    {
        let mut index = Index {
            kids: BTreeMap::new(alloc),
        };
        for (number, link) in links.iter().enumerate() {
            index.add(alloc, &near(side, link).part, number)?;
        }
        Ok(index)
    }

    /// The numbers at a component.
    pub fn at(&self, name: &Name) -> &[usize]
        ensures { result.now ≡ numbers_named self.now.kids name.now }
    {
        match self.kids.get(name) {
            Some(numbers) => numbers.as_slice(),
            None => &[],
        }
    }

    /// Adds a number to those at a part, if it is a component.
    fn add(&mut self, alloc: Global, part: &Part, number: usize) -> Result<(), Memory>
        ensures { OnOk result ((other : Name) → numbers_named self.new.kids other ≡ numbers_named self.old.kids other ++ (if is_part part.now (Kid other) then number ∷ [] else [])) }
    {
        match part {
            Part::Net | Part::Boss => Ok(()),
            Part::Kid(name) => add_kid(alloc, &mut self.kids, name, number),
        }
    }
}

/// Adds a number to those at a component. Links mostly come in the order of the components' names, so
/// the last of these is looked at first.
fn add_kid(
    alloc: Global,
    kids: &mut BTreeMap<Name, Seq<usize>>,
    name: &Name,
    number: usize,
) -> Result<(), Memory>
    ensures { OnOk result ((other : Name) → numbers_named kids.new other ≡ numbers_named kids.old other ++ (if is_same_name name.now other then number ∷ [] else [])) }
{
    one_name();
    if let Some(last) = kids.last_entry() {
        if last.key().is_same(name) {
            return last.into_mut().push(number);
        }
    }
    put_kid(alloc, kids, name, number)
}

/// The same by a search for the component.
fn put_kid(
    alloc: Global,
    kids: &mut BTreeMap<Name, Seq<usize>>,
    name: &Name,
    number: usize,
) -> Result<(), Memory>
    ensures { OnOk result ((other : Name) → numbers_named kids.new other ≡ numbers_named kids.old other ++ (if is_same_name name.now other then number ∷ [] else [])) }
{
    one_name();
    let numbers = kids.entry(name.copy(alloc)?)?.or_insert(Seq::new(alloc));
    numbers.push(number)
}

//! What comes to the parts of a network.

ghost use Rattle.std.specs.Prelude.{◌≡◌, [], ◌++◌, IfOk, OnOk, if◌then◌else◌};
ghost use Rattle.dsde_values.specs.declared.name.Name.{Name};
ghost use Rattle.dsde_routes_wiring.specs.given.structure.Gather.{is_part};
ghost use Rattle.dsde_routes_wiring.specs.given.structure.plan_Part_TheVariants as part;
ghost use Rattle.dsde_routes.specs.Passing.{carry, come_of, from_parts, passing};
ghost use Rattle.dsde_routes.specs.Putting.{comes_to, ways_to};

use crate::carry::{Come, carry};
use crate::sending::sents;
use crate::sent::Sents;
use dsde_bank::Handle;
use dsde_lists::Memory;
use dsde_routes_wiring::given::structure::{Link, Part};
use dsde_routes_wiring::{Passing, Wiring};
use dsde_values::{Name, Seq};
use std::alloc::Global;
use std::collections::BTreeMap;

/// The ways that come to the executive of a network, and to its components, by their names.
#[derive(Drop)]
pub struct Comes {
    pub boss: Seq<Passing>,
    kids: BTreeMap<Name, Seq<Passing>>,
}

impl Comes {
    fn new(alloc: Global) -> Comes
        ensures boss { result.boss ≡ [] }
        ensures kids { (name : Name) → comes_to result name ≡ [] }
    {
        Comes {
            boss: Seq::new(alloc),
            kids: BTreeMap::new(alloc),
        }
    }

    /// What comes to the component of this name.
    pub fn to(&self, name: &Name) -> &[Passing]
        ensures { result.now ≡ comes_to self.now name.now }
    {
        match self.kids.get(name) {
            Some(list) => list.as_slice(),
            None => &[],
        }
    }

    /// Adds the ways over the link of this number, if it leads to the executive or to a component.
    fn add(
        &mut self,
        alloc: Global,
        number: usize,
        link: &Link,
        come: Come<'_>,
        boss: Handle,
        kids: &Sents,
    ) -> Result<(), Memory>
        ensures boss { OnOk result (self.new.boss ≡ self.old.boss ++ (if is_part link.now.to.part part.Boss then carry (from_parts (come_of come.entry) boss kids.now) number link.now else [])) }
        ensures kids { OnOk result ((name : Name) → comes_to self.new name ≡ comes_to self.old name ++ (if is_part link.now.to.part (part.Kid name) then carry (from_parts (come_of come.entry) boss kids.now) number link.now else [])) }
    {
        match &link.to.part {
            Part::Net => Ok(()),
            Part::Boss => carry(alloc, number, link, come, boss, kids, &mut self.boss),
            Part::Kid(name) => {
                let list = self
                    .kids
                    .entry(name.copy(alloc)?)?
                    .or_insert(Seq::new(alloc));
                carry(alloc, number, link, come, boss, kids, list)
            }
        }
    }
}

/// The ways that links carry to the executive and to the components of a network.
fn carried(
    alloc: Global,
    links: &[Link],
    come: Come<'_>,
    boss: Handle,
    kids: &Sents,
) -> Result<Comes, Memory>
    ensures boss { IfOk result (λ comes. comes.boss ≡ passing (from_parts (come_of come.entry) boss kids.now) 0 links.now part.Boss) }
    ensures kids { IfOk result (λ comes. (name : Name) → comes_to comes name ≡ passing (from_parts (come_of come.entry) boss kids.now) 0 links.now (part.Kid name)) }
{
    let mut comes = Comes::new(alloc);
    for (number, link) in links.iter().enumerate() {
        comes.add(alloc, number, link, come, boss, kids)?;
    }
    Ok(comes)
}

/// The ways that come to the executive and to the components of a network, where these come to it.
pub fn comes_in(alloc: Global, net: &Wiring, come: Come<'_>) -> Result<Comes, Memory>
    ensures boss { IfOk result (λ comes. comes.boss ≡ ways_to net.now (come_of come.entry) part.Boss) }
    ensures kids { IfOk result (λ comes. (name : Name) → comes_to comes name ≡ ways_to net.now (come_of come.entry) (part.Kid name)) }
{
    let kids = sents(alloc, net.kids.as_slice())?;
    carried(alloc, net.links.as_slice(), come, net.boss, &kids)
}

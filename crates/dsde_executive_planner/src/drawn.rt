//! What items have put into a structure so far.

ghost use Rattle.std.specs.Prelude.{◌≡◌, [], map, IfOk};
ghost use Rattle.dsde_language.specs.Outcome.{Gives};
ghost use Rattle.dsde_executive_plans.specs.Layout.{with_entry, with_link, has_part, tied, plan_of};
ghost use Rattle.dsde_executive_plans.specs.given.structure.Survival.{IsInOrder};
ghost use Rattle.dsde_executive_planner.specs.Drawing.{Becomes};

use crate::entries::Entries;
use crate::found::index_near;
use dsde_executive_plans::PlacedLink;
use dsde_executive_plans::given::structure::{Entry, Link, Part, Plan};
use dsde_faults::{EvalEnd, FaultKind};
use dsde_lists::Memory;
use dsde_values::Seq;
use std::alloc::Global;

/// How many components a structure may have, and how many links.
const MOST: usize = 65_536;

/// The components so far, and the links in the order in which they came.
#[derive(Drop)]
pub(crate) struct Drawn {
    pub entries: Entries,
    pub links: Seq<PlacedLink>,
}

impl Drawn {
    /// Nothing.
    pub(crate) fn new(alloc: Global) -> Drawn
        ensures entries { result.entries ≡ [] }
        ensures links { result.links ≡ [] }
    {
        Drawn {
            entries: Entries::new(alloc),
            links: Seq::new(alloc),
        }
    }

    /// Puts a component in. The faults are `DuplicateComponent` where there is one of its name, and
    /// `Crowded` where there are 65,536.
    pub(crate) fn put(&mut self, at: u32, entry: Entry) -> Result<(), EvalEnd>
        ensures entries { Becomes (with_entry at entry self.old.entries) result self.new.entries }
        ensures links { self.new.links ≡ self.old.links }
    {
        if self.entries.len() >= MOST && !self.entries.has(&entry.name) {
            return Err(EvalEnd::Fault(FaultKind::Crowded, at));
        }
        if self.entries.put(entry)? {
            return Err(EvalEnd::Fault(FaultKind::DuplicateComponent, at));
        }
        Ok(())
    }

    /// Lays a link. The fault is `TooManyLinks` where there are 65,536.
    pub(crate) fn lay(&mut self, at: u32, link: Link) -> Result<(), EvalEnd>
        ensures links { Becomes (with_link at link self.old.links) result self.new.links }
        ensures entries { self.new.entries ≡ self.old.entries }
    {
        if self.links.len() >= MOST {
            return Err(EvalEnd::Fault(FaultKind::TooManyLinks, at));
        }
        self.links.push(PlacedLink { at, link })?;
        Ok(())
    }

    /// The plan of all that was put in. The fault is `DanglingLink` at the first link with an end
    /// at a component that is not there.
    pub(crate) fn plan(self, alloc: Global) -> Result<Plan, EvalEnd>
        ensures { Gives (plan_of self.entries self.links) result }
    {
        let Drawn { entries, links } = self;
        let entries = entries.into_seq(alloc)?;
        tied(entries.as_slice(), links.as_slice())?;
        Ok(Plan {
            entries,
            links: bare(alloc, links)?,
        })
    }
}

/// Whether a part of the network is there. What is in `last` is where the component of the last such
/// part was found, if any was.
fn has_part(entries: &[Entry], last: &mut usize, part: &Part) -> bool
    requires { IsInOrder entries.now }
    ensures { result ≡ has_part entries.now part.now }
{
    match part {
        Part::Net => true,
        Part::Boss => true,
        Part::Kid(name) => match index_near(entries, *last, name) {
            None => false,
            Some(index) => {
                *last = index;
                true
            }
        },
    }
}

/// Finds the first link of which an end is not there. Sources and targets mostly come in the order of
/// the components' names, so each is looked for where the last one was found.
fn tied(entries: &[Entry], links: &[PlacedLink]) -> Result<(), EvalEnd>
    requires { IsInOrder entries.now }
    ensures { Gives (tied entries.now links.now) result }
{
    let mut last_from = 0;
    let mut last_to = 0;
    for placed in links {
        let link = &placed.link;
        if !has_part(entries, &mut last_from, &link.from.part)
            || !has_part(entries, &mut last_to, &link.to.part)
        {
            return Err(EvalEnd::Fault(FaultKind::DanglingLink, placed.at));
        }
    }
    Ok(())
}

/// The links without their places.
fn bare(alloc: Global, placed: Seq<PlacedLink>) -> Result<Seq<Link>, Memory>
    ensures { IfOk result (λ links. links ≡ map (λ own. own.link) placed) }
{
    let mut links = Seq::with_room(alloc, placed.len())?;
    for PlacedLink { at: _, link } in placed.into_vec() {
        links.push(link)?;
    }
    Ok(links)
}

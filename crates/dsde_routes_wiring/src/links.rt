//! The links of a network.

ghost use Rattle.std.specs.Prelude.{◌≡◌, [], IfOk};
ghost use Rattle.dsde_structure.specs.declared.plan.Part.TheVariants.{Net};
ghost use Rattle.dsde_structure.specs.Gather.{is_part};
ghost use Rattle.dsde_routes_wiring.specs.Numbers.{AreEnds, numbers_at};

use crate::index::Index;
use crate::side::{Side, near};
use dsde_bank::given::lists::Memory;
use dsde_structure::{Link, Part};
use dsde_values::Seq;
use std::alloc::Global;
use std::marker::Model;

/// The links of a network, which contracts see as their list. Those that lead from a port of the network
/// or to it are found without a look at the others, and those of a component where an index was made of
/// them: a network whose structure changes again and again mostly needs none.
#[derive(Drop)]
pub struct Links {
    items: Seq<Link>,
    from_net: Seq<usize>,
    to_net: Seq<usize>,
    ends: Option<Ends>,
}

/// The numbers of links by the component that they lead from, and by that which they lead to.
#[derive(Drop)]
struct Ends {
    from: Index,
    to: Index,
}

impl Model for Links {
    ghost use Rattle.std.specs.Prelude.{◌≡◌, List, IfSome};
    ghost use Rattle.std.specs.Coded.{coded_list};
    ghost use Rattle.dsde_structure.specs.declared.plan.Link.{Link};
    ghost use Rattle.dsde_structure.specs.declared.plan.Part.TheVariants.{Net};
    ghost use Rattle.dsde_structure.specs.contracts.plan.Link as link;
    ghost use Rattle.dsde_routes_wiring.specs.declared.side.Side.TheVariants.{Out, Into};
    ghost use Rattle.dsde_routes_wiring.specs.Numbers.{AreEnds, numbers_at};

    ghost Value = { List Link };

    ghost coded = { coded_list link.the_row.coded };

    ghost view = { λ links. links.items };

    ghost invariant = { λ links. (links.from_net ≡ numbers_at Into Net links.items) × (links.to_net ≡ numbers_at Out Net links.items) × IfSome links.ends (AreEnds links.items) };
}

impl Links {
    /// No links, which take no memory yet.
    pub fn new(alloc: Global) -> Links
        ensures { result ≡ [] }
    {
        Links {
            items: Seq::new(alloc),
            from_net: Seq::new(alloc),
            to_net: Seq::new(alloc),
            ends: None,
        }
    }

    /// These links.
    pub fn of(alloc: Global, items: Seq<Link>) -> Result<Links, Memory>
        ensures { IfOk result (λ links. links ≡ items) }
    {
        let from_net = numbers(alloc, Side::Into, &Part::Net, items.as_slice())?;
        let to_net = numbers(alloc, Side::Out, &Part::Net, items.as_slice())?;
        Ok(Links {
            items,
            from_net,
            to_net,
            ends: None,
        })
    }

    /// The links, one after the other.
    pub fn as_slice(&self) -> &[Link]
        ensures { result.now ≡ self.now }
    {
        self.items.as_slice()
    }

    /// The numbers of the links that lead to a port of the network itself, or from one, in their order.
    pub fn at_net(&self, side: Side) -> &[usize]
        ensures { result.now ≡ numbers_at side Net self.now }
    {
        match side {
            Side::Out => self.to_net.as_slice(),
            Side::Into => self.from_net.as_slice(),
        }
    }

    /// The numbers of the links that lead to a part, or from it, in their order: by a look at each link,
    /// unless there is an index of the components.
    pub fn at(&self, alloc: Global, side: Side, part: &Part) -> Result<Seq<usize>, Memory>
        ensures { IfOk result (λ numbers. numbers ≡ numbers_at side part.now self.now) }
    {
        match (part, &self.ends) {
            (Part::Kid(name), Some(ends)) => match side {
                Side::Out => Seq::from_slice(alloc, ends.to.at(name)),
                Side::Into => Seq::from_slice(alloc, ends.from.at(name)),
            },
            _ => numbers(alloc, side, part, self.items.as_slice()),
        }
    }

    /// Makes an index of the components at their ends, if there is none.
    pub fn index(&mut self, alloc: Global) -> Result<(), Memory>
        ensures { self.new ≡ self.old }
    {
        if self.ends.is_none() {
            self.ends = Some(Ends::of(alloc, self.items.as_slice())?);
        }
        Ok(())
    }
}

impl Ends {
    fn of(alloc: Global, links: &[Link]) -> Result<Ends, Memory>
        ensures { IfOk result (AreEnds links.now) }
    {
        Ok(Ends {
            from: Index::of(alloc, Side::Into, links)?,
            to: Index::of(alloc, Side::Out, links)?,
        })
    }
}

/// Whether parts of a network are the same.
fn is_part(part: &Part, other: &Part) -> bool
    ensures { result ≡ is_part part.now other.now }
{
    match (part, other) {
        (Part::Net, Part::Net) => true,
        (Part::Boss, Part::Boss) => true,
        (Part::Kid(name), Part::Kid(own)) => name == own,
        _ => false,
    }
}

/// The numbers of the links with an end on this side at a part, by a look at each.
fn numbers(alloc: Global, side: Side, part: &Part, links: &[Link]) -> Result<Seq<usize>, Memory>
    ensures { IfOk result (λ numbers. numbers ≡ numbers_at side part.now links.now) }
{
    let mut numbers = Seq::new(alloc);
    for (number, link) in links.iter().enumerate() {
        if is_part(&near(side, link).part, part) {
            numbers.push(number)?;
        }
    }
    Ok(numbers)
}

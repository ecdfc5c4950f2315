//! Ways found by the ports at which they end.

ghost use Rattle.std.specs.Prelude.{◌≡◌, ◌==◌, ℕ, [], ◌∷◌, ◌++◌, if◌then◌else◌, IfOk, OnOk};
ghost use Rattle.dsde_routes.specs.Ports.{numbers_at, numbers_of};

use dsde_lists::Memory;
use dsde_routes_wiring::Passing;
use dsde_values::Seq;
use std::alloc::Global;
use std::collections::BTreeMap;
use std::marker::Model;

/// The numbers of ways in a list, by the ports at which they end.
#[derive(Drop)]
pub struct Ports {
    numbers: BTreeMap<u32, Seq<usize>>,
}

impl Ports {
    pub fn new(alloc: Global) -> Ports
        ensures { (port : ℕ) → numbers_of result port ≡ [] }
    {
        Ports {
            numbers: BTreeMap::new(alloc),
        }
    }

    /// The ports of a list.
    pub fn of(alloc: Global, list: &[Passing]) -> Result<Ports, Memory>
        ensures { IfOk result (λ ports. (port : ℕ) → numbers_of ports port ≡ numbers_at port list.now) }
    {
        let mut ports = Ports::new(alloc);
        for (number, passing) in list.iter().enumerate() {
            ports.add(alloc, passing.port, number)?;
        }
        Ok(ports)
    }

    /// The numbers of those that end at a port.
    pub fn at(&self, port: u32) -> &[usize]
        ensures { result.now ≡ numbers_of self.now port }
    {
        match self.numbers.get(&port) {
            Some(numbers) => numbers.as_slice(),
            None => &[],
        }
    }

    /// Adds a number to those at a port.
    fn add(&mut self, alloc: Global, port: u32, number: usize) -> Result<(), Memory>
        ensures { OnOk result ((other : ℕ) → numbers_of self.new other ≡ numbers_of self.old other ++ (if port == other then number ∷ [] else [])) }
    {
        let numbers = self.numbers.entry(port)?.or_insert(Seq::new(alloc));
        numbers.push(number)
    }
}

/// The ways that a network sends, which contracts see as their list. Those at one of its out ports are
/// found without a look at the others.
#[derive(Drop)]
pub struct SentWays {
    items: Seq<Passing>,
    ports: Ports,
}

impl Model for SentWays {
    ghost use Rattle.std.specs.Prelude.{◌≡◌, ℕ, List};
    ghost use Rattle.std.specs.Coded.{coded_list};
    ghost use Rattle.dsde_routes_wiring.specs.declared.row.Passing.{Passing};
    ghost use Rattle.dsde_routes_wiring.specs.contracts.row.Passing as passing;
    ghost use Rattle.dsde_routes.specs.Ports.{numbers_at, numbers_of};

    ghost Value = { List Passing };

    ghost coded = { coded_list (passing.the_row.coded) };

    ghost view = { λ ways. ways.items };

    ghost invariant = { λ ways. (port : ℕ) → numbers_of ways.ports port ≡ numbers_at port ways.items };
}

impl SentWays {
    /// These ways.
    pub fn of(alloc: Global, items: Seq<Passing>) -> Result<SentWays, Memory>
        ensures { IfOk result (λ ways. ways ≡ items) }
    {
        let ports = Ports::of(alloc, items.as_slice())?;
        Ok(SentWays { items, ports })
    }

    /// The ways, one after the other.
    pub fn as_slice(&self) -> &[Passing]
        ensures { result.now ≡ self.now }
    {
        self.items.as_slice()
    }

    /// The numbers of those that end at a port.
    pub fn at(&self, port: u32) -> &[usize]
        ensures { result.now ≡ numbers_at port self.now }
    {
        self.ports.at(port)
    }
}

/// The ways that come to a network, which contracts see as their list. Those at one of its in ports are
/// found without a look at the others.
#[derive(Drop)]
pub struct GotWays<'w> {
    items: &'w [Passing],
    ports: Ports,
}

impl<'w> Model for GotWays<'w> {
    ghost use Rattle.std.specs.Prelude.{◌≡◌, ℕ, List};
    ghost use Rattle.std.specs.Coded.{coded_list};
    ghost use Rattle.dsde_routes_wiring.specs.declared.row.Passing.{Passing};
    ghost use Rattle.dsde_routes_wiring.specs.contracts.row.Passing as passing;
    ghost use Rattle.dsde_routes.specs.Ports.{numbers_at, numbers_of};

    ghost Value = { List Passing };

    ghost coded = { coded_list (passing.the_row.coded) };

    ghost view = { λ ways. ways.items.now };

    ghost invariant = { λ ways. (port : ℕ) → numbers_of ways.ports port ≡ numbers_at port ways.items.now };
}

impl<'w> GotWays<'w> {
    /// These ways.
    pub fn of(alloc: Global, items: &'w [Passing]) -> Result<GotWays<'w>, Memory>
        ensures { IfOk result (λ ways. ways ≡ items.now) }
    {
        let ports = Ports::of(alloc, items)?;
        Ok(GotWays { items, ports })
    }

    /// The ways, one after the other.
    pub fn as_slice(&self) -> &[Passing]
        ensures { result.now ≡ self.now }
    {
        self.items
    }

    /// The numbers of those that end at a port.
    pub fn at(&self, port: u32) -> &[usize]
        ensures { result.now ≡ numbers_at port self.now }
    {
        self.ports.at(port)
    }
}

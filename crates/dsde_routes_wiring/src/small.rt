//! Short lists, which mostly take no memory of their own.

ghost use Rattle.std.specs.Prelude.{◌≡◌, [], ◌∷◌, ◌++◌, OnOk, OnErr, IfOk, option_to_list};

use dsde_bank::given::lists::Memory;
use dsde_structure::{Link, Via};
use dsde_values::{Value, copy_value};
use smallvec::SmallVec;
use std::alloc::Global;
use std::marker::Model;

/// The link numbers of a route, from its target back to its source.
#[derive(Drop)]
pub struct Rank {
    numbers: SmallVec<usize, 4>,
}

impl Model for Rank {
    ghost use Rattle.std.specs.Prelude.{ℕ, List};
    ghost use Rattle.std.specs.Coded.{coded_list, coded_ℕ};

    ghost Value = { List ℕ };

    ghost coded = { coded_list coded_ℕ };

    ghost view = { λ rank. rank.numbers.items };
}

impl Rank {
    pub fn new(alloc: Global) -> Rank
        ensures { result ≡ [] }
    {
        Rank {
            numbers: SmallVec::new(alloc),
        }
    }

    /// The numbers, one after the other.
    pub fn as_slice(&self) -> &[usize]
        ensures { result.now ≡ self.now }
    {
        self.numbers.as_slice()
    }

    /// A rank equal to this one.
    pub fn copy(&self, alloc: Global) -> Result<Rank, Memory>
        ensures { IfOk result (λ rank. rank ≡ self.now) }
    {
        Ok(Rank {
            numbers: SmallVec::from_slice(alloc, self.numbers.as_slice())?,
        })
    }

    /// This rank behind a number.
    pub fn behind(&self, alloc: Global, number: usize) -> Result<Rank, Memory>
        ensures { IfOk result (λ rank. rank ≡ number ∷ self.now) }
    {
        let mut rank = Rank::one(alloc, number);
        rank.append(self.as_slice())?;
        Ok(rank)
    }

    /// The rank of one number, which takes no memory.
    fn one(alloc: Global, number: usize) -> Rank
        ensures { result ≡ number ∷ [] }
    {
        let mut numbers = SmallVec::new(alloc);
        numbers.push_reserved(number);
        Rank { numbers }
    }

    /// Adds a number at the end. Without memory the rank stays as it was.
    pub fn push(&mut self, number: usize) -> Result<(), Memory>
        ensures ok { OnOk result (self.new ≡ self.old ++ number ∷ []) }
        ensures err { OnErr result (self.new ≡ self.old) }
    {
        self.numbers.push(number)?;
        Ok(())
    }

    /// Adds numbers at the end.
    pub fn append(&mut self, more: &[usize]) -> Result<(), Memory>
        ensures { OnOk result (self.new ≡ self.old ++ more.now) }
    {
        self.numbers.extend_from_slice(more)?;
        Ok(())
    }
}

/// The translations of a route, from its source on.
#[derive(Drop)]
pub struct Chain {
    vias: SmallVec<Via, 2>,
}

impl Model for Chain {
    ghost use Rattle.std.specs.Prelude.{List};
    ghost use Rattle.std.specs.Coded.{coded_list, codes};
    ghost use Rattle.dsde_structure.specs.declared.plan.Via.{Via};
    ghost use Rattle.dsde_structure.specs.contracts.plan.Via as via;

    ghost Value = { List Via };

    ghost coded = { coded_list (via.the_row.coded) };

    ghost view = { λ chain. chain.vias.items };
}

impl Chain {
    pub fn new(alloc: Global) -> Chain
        ensures { result ≡ [] }
    {
        Chain {
            vias: SmallVec::new(alloc),
        }
    }

    /// The translations, one after the other.
    pub fn as_slice(&self) -> &[Via]
        ensures { result.now ≡ self.now }
    {
        self.vias.as_slice()
    }

    /// Adds a translation at the end. Without memory the chain stays as it was.
    pub fn push(&mut self, via: Via) -> Result<(), Memory>
        ensures ok { OnOk result (self.new ≡ self.old ++ via ∷ []) }
        ensures err { OnErr result (self.new ≡ self.old) }
    {
        self.vias.push(via)?;
        Ok(())
    }

    /// A chain equal to this one.
    pub fn copy(&self, alloc: Global) -> Result<Chain, Memory>
        ensures { IfOk result (λ chain. chain ≡ self.now) }
    {
        let mut chain = Chain::new(alloc);
        chain.append(alloc, self.as_slice())?;
        Ok(chain)
    }

    /// Adds translations at the end.
    pub fn append(&mut self, alloc: Global, more: &[Via]) -> Result<(), Memory>
        ensures { OnOk result (self.new ≡ self.old ++ more.now) }
    {
        for via in more {
            self.push_copy(alloc, via)?;
        }
        Ok(())
    }

    /// Adds a translation equal to this one at the end.
    fn push_copy(&mut self, alloc: Global, via: &Via) -> Result<(), Memory>
        ensures { OnOk result (self.new ≡ self.old ++ via.now ∷ []) }
    {
        self.push(copy_via(alloc, via)?)
    }

    /// Adds the translation of a link at the end, if it has one.
    pub fn append_link(&mut self, alloc: Global, link: &Link) -> Result<(), Memory>
        ensures { OnOk result (self.new ≡ self.old ++ option_to_list link.now.via) }
    {
        match &link.via {
            Some(via) => self.push_copy(alloc, via),
            None => Ok(()),
        }
    }
}

/// A key of a translation equal to this one.
fn copy_key(alloc: Global, key: &Option<Value>) -> Result<Option<Value>, Memory>
    ensures { IfOk result (λ copy. copy ≡ key.now) }
{
    match key {
        Some(value) => Ok(Some(copy_value(alloc, value)?)),
        None => Ok(None),
    }
}

/// A translation equal to this one.
fn copy_via(alloc: Global, via: &Via) -> Result<Via, Memory>
    ensures { IfOk result (λ copy. copy ≡ via.now) }
{
    Ok(Via {
        id: via.id,
        key: copy_key(alloc, &via.key)?,
    })
}

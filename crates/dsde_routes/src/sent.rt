//! What the components of a network send.

ghost use Rattle.std.specs.Prelude.{◌≡◌, [], OnOk};
ghost use Rattle.std.specs.Option.{option_copied};
ghost use Rattle.dsde_values.specs.declared.name.Name.{Name};
ghost use Rattle.dsde_routes.specs.Passing.{found};
ghost use Rattle.dsde_routes.specs.Sents.{added};

use crate::ports::SentWays;
use dsde_bank::Handle;
use dsde_lists::Memory;
use dsde_values::Name;
use std::alloc::Global;
use std::collections::BTreeMap;
use std::marker::Model;

/// The ways out of a component: from its own ports, or those that end at the out ports of a network.
#[derive(Drop)]
pub enum Sent {
    Leaf(Handle),
    Net(SentWays),
}

/// What the components of a network send, by their names.
#[derive(Drop)]
pub struct Sents {
    kids: BTreeMap<Name, Sent>,
}

impl Model for Sents {
    ghost use Rattle.std.specs.Prelude.{List};
    ghost use Rattle.std.specs.Coded.{coded_list, coded×};
    ghost use Rattle.dsde_values.specs.declared.name.Name.{Name};
    ghost use Rattle.dsde_values.specs.contracts.name.Name as name;
    ghost use Rattle.dsde_routes.specs.declared.sent.Sent.{Sent};
    ghost use Rattle.dsde_routes.specs.contracts.sent.Sent as sent;

    ghost Value = { List (Name × Sent) };

    ghost coded = { coded_list (coded× (name.the_row.coded) (sent.the_row.coded)) };

    ghost view = { λ sents. sents.kids.entries };
}

impl Sents {
    pub fn new(alloc: Global) -> Sents
        ensures { result ≡ [] }
    {
        Sents {
            kids: BTreeMap::new(alloc),
        }
    }

    /// What the component of this name sends.
    pub fn find(&self, name: &Name) -> Option<&Sent>
        ensures { option_copied result ≡ found self.now name.now }
    {
        self.kids.get(name)
    }

    /// Adds what a component sends, unless there is one of its name.
    pub fn add(&mut self, alloc: Global, name: &Name, sent: Sent) -> Result<(), Memory>
        ensures { OnOk result ((other : Name) → found self.new other ≡ added name.now sent self.old other) }
    {
        self.kids.entry(name.copy(alloc)?)?.or_insert(sent);
        Ok(())
    }
}

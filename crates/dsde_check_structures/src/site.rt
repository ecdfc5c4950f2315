//! Where an item of a structure stands.

ghost use Rattle.std.specs.Prelude.{◌≡◌};

use dsde_check_expressions::given::check_scope::Around;
use dsde_check_expressions::given::check_tables::{FamilyEntry, PortEntry};
use dsde_names::Names;
use std::alloc::Global;
use std::marker::Model;

/// Where an item of a structure stands. Contracts see it as the rules' `Site`.
#[derive(Drop)]
pub(crate) struct Site<'s, 'm> {
    around: &'s Around<'m>,
    ports: &'s Names<PortEntry<'m>>,
    execs: &'s Names<PortEntry<'m>>,
    families: &'s Names<FamilyEntry<'m>>,
}

impl<'s, 'm> Model for Site<'s, 'm> {
    ghost use Rattle.dsde_language.specs.declared.known.Site.{Site};
    ghost use Rattle.dsde_language.specs.contracts.known.Site as whole;

    ghost Value = { Site };

    ghost coded = { whole.the_row.coded };

    ghost view = { λ site. record { around = site.around.now; ports = site.ports.now; execs = site.execs.now; families = site.families.now } };
}

impl<'s, 'm> Site<'s, 'm> {
    /// In a network with these ports, whose executive has those, and whose components have these
    /// models.
    pub(crate) fn new(
        around: &'s Around<'m>,
        ports: &'s Names<PortEntry<'m>>,
        execs: &'s Names<PortEntry<'m>>,
        families: &'s Names<FamilyEntry<'m>>,
    ) -> Site<'s, 'm>
        ensures { result ≡ record { around = around.now; ports = ports.now; execs = execs.now; families = families.now } }
    {
        Site {
            around,
            ports,
            execs,
            families,
        }
    }

    /// What stands round its expressions.
    pub(crate) fn around(&self) -> &'s Around<'m>
        ensures { result.now ≡ self.now.around }
    {
        self.around
    }

    /// Where memory comes from.
    pub(crate) fn alloc(&self) -> Global {
        self.around.alloc()
    }

    /// The ports of the network.
    pub(crate) fn ports(&self) -> &'s Names<PortEntry<'m>>
        ensures { result.now ≡ self.now.ports }
    {
        self.ports
    }

    /// The ports of its executive.
    pub(crate) fn execs(&self) -> &'s Names<PortEntry<'m>>
        ensures { result.now ≡ self.now.execs }
    {
        self.execs
    }

    /// The models of its components, by their identifiers.
    pub(crate) fn families(&self) -> &'s Names<FamilyEntry<'m>>
        ensures { result.now ≡ self.now.families }
    {
        self.families
    }
}

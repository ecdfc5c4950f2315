//! Where the items of a structure stand.

ghost use Rattle.std.specs.Prelude.{◌≡◌, IfOk};
ghost use Rattle.std.specs.Option.{option_copied};
ghost use Rattle.dsde_language.specs.DeclaredStructures.{end_ports, kid_ports, place_of_items};
ghost use Rattle.dsde_program_structures.specs.Sides.{gate_at};

use crate::families::families;
use crate::gate::Gate;
use crate::gates::declared;
use crate::structures::Structures;
use dsde_language::given::names::Names;
use dsde_lists::{Boxed, Memory};
use dsde_program_expressions::Resolver;
use dsde_program_expressions::given::check_tables::{FamilyEntry, Member};
use dsde_syntax::{Body, EndPart, Item, PortDecl};
use std::marker::Model;

/// Where the items of a structure stand. Contracts see it as the `Place` of the definitions.
#[derive(Drop)]
pub(crate) struct Place<'p, 'm> {
    structures: &'p Structures<'m>,
    net: Boxed<Gate<'m>>,
    boss: Boxed<Gate<'m>>,
    families: Boxed<Names<FamilyEntry<'m>>>,
}

impl<'p, 'm> Model for Place<'p, 'm> {
    ghost use Rattle.dsde_language.specs.DeclaredStructures.{Place};
    ghost use Rattle.dsde_program_structures.specs.Stored.{place_code};

    ghost Value = { Place };

    ghost coded = { place_code };

    ghost view = { λ place. record { known = place.structures.now; ins = place.net.ins; outs = place.net.outs; boss_ins = place.boss.ins; boss_outs = place.boss.outs; families = place.families } };
}

impl<'p, 'm> Place<'p, 'm> {
    /// In a network of these ports, whose executive has this body, among these items.
    pub(crate) fn new(
        structures: &'p Structures<'m>,
        ports: &'m [PortDecl],
        body: &'m Body,
        items: &'m [Item],
    ) -> Result<Place<'p, 'm>, Memory>
        ensures { IfOk result (λ place. place ≡ place_of_items structures.now ports.now body.now items.now) }
    {
        let resolver = structures.resolver();
        let alloc = resolver.alloc();
        let known = resolver.known();
        let net = declared(alloc, known, ports)?;
        let boss = declared(alloc, known, body.ports.as_slice())?;
        let families = families(alloc, known, items)?;
        Ok(Place {
            structures,
            net,
            boss,
            families,
        })
    }

    /// What resolves its expressions.
    pub(crate) fn resolver(&self) -> &'p Resolver<'m>
        ensures { result.now ≡ self.now.known }
    {
        self.structures.resolver()
    }

    /// The ports of the components with an identifier.
    fn gate_at(&self, name: &[u8]) -> Option<&Gate<'m>>
        ensures { option_copied result ≡ gate_at self.now name.now }
    {
        match self.families.get().get(name) {
            Some(family) => self.structures.gate(family.model()),
            None => None,
        }
    }

    /// The ports of one direction of the components with an identifier.
    fn kid_ports(&self, out: bool, name: &[u8]) -> &Names<Member<'m>>
        ensures { result.now ≡ kid_ports self.now out name.now }
    {
        match self.gate_at(name) {
            Some(gate) => gate.side(out),
            None => self.structures.nothing(),
        }
    }

    /// The ports that an end of a link may be at.
    pub(crate) fn end_ports(&self, is_source: bool, part: &EndPart) -> &Names<Member<'m>>
        ensures { result.now ≡ end_ports self.now is_source part.now }
    {
        match part {
            EndPart::Net => self.net.get().side(!is_source),
            EndPart::Exec => self.boss.get().side(is_source),
            EndPart::Kid { name, .. } => self.kid_ports(is_source, name.name.as_slice()),
        }
    }
}

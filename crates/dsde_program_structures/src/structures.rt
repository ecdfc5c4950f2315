//! Structures.

ghost use Rattle.std.specs.Prelude.{◌≡◌, [], slice_get, IfOk, OnOk};
ghost use Rattle.std.specs.Option.{option_copied};
ghost use Rattle.dsde_language.specs.DeclaredStructures.{place_of_items};
ghost use Rattle.dsde_language.specs.Statements.{body_scope};
ghost use Rattle.dsde_program_expressions.specs.given.program_layout.LayPieces.{over};
ghost use Rattle.dsde_program_expressions.specs.given.program_layout.LayItems.{lay_items};
ghost use Rattle.dsde_program_structures.specs.Sides.{gates_of};

use crate::gate::Gate;
use crate::gates::gates;
use crate::items::items;
use crate::place::Place;
use dsde_language::given::names::Names;
use dsde_language::{Make, Tables};
use dsde_lists::Memory;
use dsde_program_expressions::Resolver;
use dsde_program_expressions::given::check_tables::Member;
use dsde_program_expressions::given::program_slots::body_scope;
use dsde_syntax::{Body, Item, PortDecl, Typed};
use dsde_values::Seq;
use std::marker::Model;

/// Lays the structures of a file: beside what resolves its expressions, the ports of each of its
/// models in tables by name, made once for all structures. Contracts see it as what is known of the
/// file.
#[derive(Drop)]
pub struct Structures<'m> {
    resolver: Resolver<'m>,
    gates: Seq<Gate<'m>>,
    nothing: Names<Member<'m>>,
}

impl<'m> Model for Structures<'m> {
    ghost use Rattle.std.specs.Prelude.{◌≡◌, []};
    ghost use Rattle.dsde_language.specs.declared.known.Known.{Known};
    ghost use Rattle.dsde_language.specs.contracts.known.Known as whole;
    ghost use Rattle.dsde_program_structures.specs.Sides.{gates_of};

    ghost Value = { Known };

    ghost coded = { whole.the_row.coded };

    ghost view = { λ structures. structures.resolver };

    ghost invariant = { λ structures. (structures.gates ≡ gates_of structures.resolver) × (structures.nothing ≡ []) };
}

impl<'m> Structures<'m> {
    /// Over what resolves the expressions of the file.
    pub fn new(resolver: Resolver<'m>) -> Result<Structures<'m>, Memory>
        ensures { IfOk result (λ structures. structures ≡ resolver.entry) }
    {
        let gates = gates(resolver.alloc(), resolver.known())?;
        let nothing = Names::new(resolver.alloc());
        Ok(Structures {
            resolver,
            gates,
            nothing,
        })
    }

    /// What resolves the expressions of the file.
    pub fn resolver(&self) -> &Resolver<'m>
        ensures { result.now ≡ self.now }
    {
        &self.resolver
    }

    /// The ports of the model with a number.
    pub(crate) fn gate(&self, model: u32) -> Option<&Gate<'m>>
        ensures { option_copied result ≡ slice_get (gates_of self.now) model }
    {
        self.gates.get(model as usize)
    }

    /// The ports of an identifier that no component has.
    pub(crate) fn nothing(&self) -> &Names<Member<'m>>
        ensures { result.now ≡ [] }
    {
        &self.nothing
    }

    /// Lays the items of a structure behind tables, in a network of these parameters and ports, whose
    /// executive has this body.
    pub fn structure(
        &self,
        params: &'m [Typed],
        ports: &'m [PortDecl],
        body: &'m Body,
        items: &'m [Item],
        tables: &mut Tables,
    ) -> Result<Seq<Make>, Memory>
        ensures own { IfOk result (λ makes. makes ≡ (over (body_scope self.now params.now body.now) (lay_items (place_of_items self.now ports.now body.now items.now) items.now) [] tables.old).own) }
        ensures tables { OnOk result (tables.new ≡ (over (body_scope self.now params.now body.now) (lay_items (place_of_items self.now ports.now body.now items.now) items.now) [] tables.old).tables) }
    {
        let place = Place::new(self, ports, body, items)?;
        behind(&place, params, body, items, tables)
    }
}

/// Lays items that stand here, over the names that the executive's body sees.
fn behind<'m>(
    place: &Place<'_, 'm>,
    params: &'m [Typed],
    body: &'m Body,
    own: &'m [Item],
    tables: &mut Tables,
) -> Result<Seq<Make>, Memory>
    ensures own { IfOk result (λ makes. makes ≡ (over (body_scope place.now.known params.now body.now) (lay_items place.now own.now) [] tables.old).own) }
    ensures tables { OnOk result (tables.new ≡ (over (body_scope place.now.known params.now body.now) (lay_items place.now own.now) [] tables.old).tables) }
{
    let mut scope = seen(place.resolver(), params, body)?;
    items(place, own, &mut scope, tables)
}

/// The names that the body of an executive sees.
fn seen<'m>(
    resolver: &Resolver<'m>,
    params: &'m [Typed],
    body: &'m Body,
) -> Result<Names<Member<'m>>, Memory>
    ensures { IfOk result (λ scope. scope ≡ body_scope resolver.now params.now body.now) }
{
    body_scope(
        resolver.alloc(),
        resolver.known(),
        params,
        body.states.as_slice(),
    )
}

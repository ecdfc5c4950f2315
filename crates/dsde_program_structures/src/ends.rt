//! The ends of links.

ghost use Rattle.std.specs.Prelude.{◌≡◌, IfOk, OnOk};
ghost use Rattle.dsde_syntax.specs.declared.item.EndPart.TheVariants as end_part;
ghost use Rattle.dsde_program_expressions.specs.given.program_layout.LayItems.{lay_end, lay_index, lay_part};

use crate::arguments::number;
use crate::place::Place;
use dsde_language::given::names::Names;
use dsde_language::{MakeEnd, MakeIndex, MakePart, Tables};
use dsde_lists::Memory;
use dsde_program_expressions::Resolver;
use dsde_program_expressions::given::check_tables::Member;
use dsde_program_expressions::given::program_slots::slot_of;
use dsde_syntax::{Bracket, End, EndPart, Id};
use dsde_values::Text;

/// Lays an index, if there is one.
pub(crate) fn index<'m>(
    resolver: &Resolver<'m>,
    index: &'m Option<Bracket>,
    scope: &mut Names<Member<'m>>,
    tables: &mut Tables,
) -> Result<Option<MakeIndex>, Memory>
    ensures own { IfOk result (λ own. own ≡ (lay_index resolver.now index.now scope.old tables.old).own) }
    ensures tables { OnOk result (tables.new ≡ (lay_index resolver.now index.now scope.old tables.old).tables) }
    ensures seen { OnOk result (scope.new ≡ (lay_index resolver.now index.now scope.old tables.old).scope) }
    ensures kept { OnOk result (scope.new ≡ scope.old) }
{
    let Some(bracket) = index else {
        return Ok(None);
    };
    let at = bracket.at;
    let value = number(resolver, &bracket.value, scope, tables)?;
    Ok(Some(MakeIndex { at, value }))
}

/// Lays the index of an end at a component.
fn kid<'m>(
    resolver: &Resolver<'m>,
    name: &Id,
    own: &'m Option<Bracket>,
    scope: &mut Names<Member<'m>>,
    tables: &mut Tables,
) -> Result<MakePart, Memory>
    ensures own { IfOk result (λ part. part ≡ (lay_part resolver.now (end_part.Kid name.now own.now) scope.old tables.old).own) }
    ensures tables { OnOk result (tables.new ≡ (lay_part resolver.now (end_part.Kid name.now own.now) scope.old tables.old).tables) }
    ensures seen { OnOk result (scope.new ≡ (lay_part resolver.now (end_part.Kid name.now own.now) scope.old tables.old).scope) }
    ensures kept { OnOk result (scope.new ≡ scope.old) }
{
    let index = index(resolver, own, scope, tables)?;
    let stem = Text::from_slice(resolver.alloc(), name.name.as_slice())?;
    Ok(MakePart::Kid { stem, index })
}

/// Lays whose port an end is.
fn part<'m>(
    resolver: &Resolver<'m>,
    part: &'m EndPart,
    scope: &mut Names<Member<'m>>,
    tables: &mut Tables,
) -> Result<MakePart, Memory>
    ensures own { IfOk result (λ own. own ≡ (lay_part resolver.now part.now scope.old tables.old).own) }
    ensures tables { OnOk result (tables.new ≡ (lay_part resolver.now part.now scope.old tables.old).tables) }
    ensures seen { OnOk result (scope.new ≡ (lay_part resolver.now part.now scope.old tables.old).scope) }
    ensures kept { OnOk result (scope.new ≡ scope.old) }
{
    match part {
        EndPart::Net => Ok(MakePart::Net),
        EndPart::Exec => Ok(MakePart::Boss),
        EndPart::Kid { name, index } => kid(resolver, name, index, scope, tables),
    }
}

/// Lays an end of a link.
pub(crate) fn end<'m>(
    place: &Place<'_, 'm>,
    is_source: bool,
    own: &'m End,
    scope: &mut Names<Member<'m>>,
    tables: &mut Tables,
) -> Result<MakeEnd, Memory>
    ensures own { IfOk result (λ end. end ≡ (lay_end place.now is_source own.now scope.old tables.old).own) }
    ensures tables { OnOk result (tables.new ≡ (lay_end place.now is_source own.now scope.old tables.old).tables) }
    ensures seen { OnOk result (scope.new ≡ (lay_end place.now is_source own.now scope.old tables.old).scope) }
    ensures kept { OnOk result (scope.new ≡ scope.old) }
{
    let port = slot_of(
        place.end_ports(is_source, &own.part),
        own.port.name.as_slice(),
    )?;
    let part = part(place.resolver(), &own.part, scope, tables)?;
    Ok(MakeEnd { part, port })
}

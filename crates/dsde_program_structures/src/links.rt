//! Links.

ghost use Rattle.std.specs.Prelude.{◌≡◌, IfOk, OnOk};
ghost use Rattle.dsde_program_structures.specs.Parts.{lay_link};

use crate::ends::end;
use crate::place::Place;
use crate::translations::through;
use dsde_language::given::names::Names;
use dsde_language::{Make, Tables};
use dsde_lists::Memory;
use dsde_program_expressions::given::check_tables::Member;
use dsde_syntax::{End, ViaPart};

/// Lays a link: its ends, and then its translation.
pub(crate) fn link<'m>(
    place: &Place<'_, 'm>,
    at: u32,
    source: &'m End,
    target: &'m End,
    via: &'m Option<ViaPart>,
    scope: &mut Names<Member<'m>>,
    tables: &mut Tables,
) -> Result<Make, Memory>
    ensures own { IfOk result (λ own. own ≡ (lay_link place.now at source.now target.now via.now scope.old tables.old).own) }
    ensures tables { OnOk result (tables.new ≡ (lay_link place.now at source.now target.now via.now scope.old tables.old).tables) }
    ensures seen { OnOk result (scope.new ≡ (lay_link place.now at source.now target.now via.now scope.old tables.old).scope) }
    ensures kept { OnOk result (scope.new ≡ scope.old) }
{
    let from = end(place, true, source, scope, tables)?;
    let to = end(place, false, target, scope, tables)?;
    let via = through(place, source, via, scope, tables)?;
    Ok(Make::Link { at, from, to, via })
}

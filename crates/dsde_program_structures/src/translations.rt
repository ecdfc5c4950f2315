//! The translations of links.

ghost use Rattle.std.specs.Prelude.{◌≡◌, [], None, Some, false, true, length, IfOk, OnOk};
ghost use Rattle.dsde_language.specs.Names.{with_slot};
ghost use Rattle.dsde_program_expressions.specs.given.program_layout.LayItems.{lay_via, via_body, via_by};
ghost use Rattle.dsde_program_structures.specs.Parts.{lay_through};

use crate::arguments::{laid, number};
use crate::place::Place;
use dsde_language::given::names::Names;
use dsde_language::{MakeVia, Tables, ViaCode, ViaId};
use dsde_lists::Memory;
use dsde_program_expressions::given::check_tables::{Member, narrow};
use dsde_program_expressions::given::program_slots::{bind, slot_type};
use dsde_program_expressions::{Laid, Resolver};
use dsde_syntax::{End, ViaKey, ViaPart};
use dsde_values::Ty;

/// Lays the body of a translation, which sees these names alone.
fn body<'m>(
    resolver: &Resolver<'m>,
    names: &mut Names<Member<'m>>,
    via: &'m ViaPart,
    key: bool,
    tables: &mut Tables,
) -> Result<ViaId, Memory>
    ensures own { IfOk result (λ id. id ≡ record { 0 = length tables.old.vias }) }
    ensures tables { OnOk result (tables.new ≡ (via_body resolver.now names.old via.now key (λ number. record { id = record { 0 = number }; key = None }) [] tables.old).tables) }
{
    let id = narrow(tables.vias.len())?;
    let body = number(resolver, &via.body, names, tables)?;
    tables.vias.push(ViaCode { key, body })?;
    Ok(ViaId(id))
}

/// The name of the value that is translated.
fn names<'m>(
    resolver: &Resolver<'m>,
    via: &'m ViaPart,
    own: Ty,
) -> Result<Names<Member<'m>>, Memory>
    ensures { IfOk result (λ names. names ≡ with_slot [] via.now.value.name own) }
{
    let mut names = Names::new(resolver.alloc());
    bind(&mut names, via.value.name.as_slice(), own)?;
    Ok(names)
}

/// The name of the value that is translated, and behind it that of the key.
fn both_names<'m>(
    resolver: &Resolver<'m>,
    via: &'m ViaPart,
    key: &'m ViaKey,
    own: Ty,
    ty: Ty,
) -> Result<Names<Member<'m>>, Memory>
    ensures { IfOk result (λ names. names ≡ with_slot (with_slot [] via.now.value.name own) key.now.name.name ty) }
{
    let mut names = names(resolver, via, own)?;
    bind(&mut names, key.name.name.as_slice(), ty)?;
    Ok(names)
}

/// Lays the body of a translation, which sees the value and the key, of these types.
fn keyed_body<'m>(
    resolver: &Resolver<'m>,
    via: &'m ViaPart,
    key: &'m ViaKey,
    own: Ty,
    ty: Ty,
    tables: &mut Tables,
) -> Result<ViaId, Memory>
    ensures own { IfOk result (λ id. id ≡ record { 0 = length tables.old.vias }) }
    ensures tables { OnOk result (tables.new ≡ (via_body resolver.now (with_slot (with_slot [] via.now.value.name own) key.now.name.name ty) via.now true (λ number. record { id = record { 0 = number }; key = None }) [] tables.old).tables) }
{
    let mut names = both_names(resolver, via, key, own, ty)?;
    body(resolver, &mut names, via, true, tables)
}

/// Lays a translation of values of this type, which sees no key.
fn alone<'m>(
    resolver: &Resolver<'m>,
    own: Ty,
    via: &'m ViaPart,
    tables: &mut Tables,
) -> Result<MakeVia, Memory>
    ensures own { IfOk result (λ made. made ≡ (via_by resolver.now own via.now None [] tables.old).own) }
    ensures tables { OnOk result (tables.new ≡ (via_by resolver.now own via.now None [] tables.old).tables) }
{
    let mut names = names(resolver, via, own)?;
    let id = body(resolver, &mut names, via, false, tables)?;
    Ok(MakeVia { id, key: None })
}

/// Lays a translation of values of this type, which sees a key.
fn keyed<'m>(
    resolver: &Resolver<'m>,
    own: Ty,
    via: &'m ViaPart,
    key: &'m ViaKey,
    scope: &mut Names<Member<'m>>,
    tables: &mut Tables,
) -> Result<MakeVia, Memory>
    ensures own { IfOk result (λ made. made ≡ (via_by resolver.now own via.now (Some key.now) scope.old tables.old).own) }
    ensures tables { OnOk result (tables.new ≡ (via_by resolver.now own via.now (Some key.now) scope.old tables.old).tables) }
    ensures kept { OnOk result (scope.new ≡ scope.old) }
{
    let Laid { number, ty } = laid(resolver, &key.value, scope, tables)?;
    let id = keyed_body(resolver, via, key, own, ty, tables)?;
    Ok(MakeVia {
        id,
        key: Some(number),
    })
}

/// Lays a translation of values of this type.
fn translation<'m>(
    resolver: &Resolver<'m>,
    own: Ty,
    via: &'m ViaPart,
    scope: &mut Names<Member<'m>>,
    tables: &mut Tables,
) -> Result<MakeVia, Memory>
    ensures own { IfOk result (λ made. made ≡ (lay_via resolver.now own via.now scope.old tables.old).own) }
    ensures tables { OnOk result (tables.new ≡ (lay_via resolver.now own via.now scope.old tables.old).tables) }
    ensures seen { OnOk result (scope.new ≡ (lay_via resolver.now own via.now scope.old tables.old).scope) }
    ensures kept { OnOk result (scope.new ≡ scope.old) }
{
    match &via.key {
        Some(key) => keyed(resolver, own, via, key, scope, tables),
        None => alone(resolver, own, via, tables),
    }
}

/// Lays the translation of a link from this end, if there is one.
pub(crate) fn through<'m>(
    place: &Place<'_, 'm>,
    source: &End,
    via: &'m Option<ViaPart>,
    scope: &mut Names<Member<'m>>,
    tables: &mut Tables,
) -> Result<Option<MakeVia>, Memory>
    ensures own { IfOk result (λ own. own ≡ (lay_through place.now source.now via.now scope.old tables.old).own) }
    ensures tables { OnOk result (tables.new ≡ (lay_through place.now source.now via.now scope.old tables.old).tables) }
    ensures seen { OnOk result (scope.new ≡ (lay_through place.now source.now via.now scope.old tables.old).scope) }
    ensures kept { OnOk result (scope.new ≡ scope.old) }
{
    let Some(part) = via else {
        return Ok(None);
    };
    let resolver = place.resolver();
    let ports = place.end_ports(true, &source.part);
    let ty = slot_type(resolver.alloc(), ports, source.port.name.as_slice())?;
    let made = translation(resolver, ty, part, scope, tables)?;
    Ok(Some(made))
}

//! Types and models by their text: a type's identifier may be declared later, or not at all.

ghost use Rattle.std.specs.Prelude.{◌≡◌, [], ◌∷◌, ◌++◌, Some, IfOk, OnOk};
ghost use Rattle.dsde_values.specs.declared.types.Shape.TheVariants as own;
ghost use Rattle.dsde_language.specs.Types.{deepest, shape_depth, depths_from};
ghost use Rattle.dsde_language.specs.RuleTables.{added, field_name, port_name, model_name, with_names, numbered, text_type, by_text, text_fields, with_shape, shapes_from, text_params, text_ports, with_model, models_from};

use crate::types::{deeper, depth_of, list_type, narrow, option_type};
use crate::word::put;
use crate::{Made, Member, ModelEntry, PortEntry, TypeEntry, add_name};
use dsde_language::given::names::{Entry, Names};
use dsde_syntax::given::lists::Memory;
use dsde_syntax::{Decl, Id, PortDecl, TypeName, Typed};
use dsde_values::{Seq, Ty};
use std::alloc::Global;

fn numbered(number: u32, word: &TypeEntry<'_>) -> Ty
    ensures { result ≡ numbered number (Some word.now) }
{
    if word.is_enum() {
        Ty::Enum(number)
    } else {
        Ty::Rec(number)
    }
}

fn text_type(words: &Names<TypeEntry<'_>>, id: &Id) -> Result<Ty, Memory>
    ensures { IfOk result (λ ty. ty ≡ text_type words.now id.now) }
{
    match words.get_full(id.name.as_slice()) {
        None => Ok(Ty::Rec(0)),
        Some((number, word)) => Ok(numbered(narrow(number)?, word)),
    }
}

/// A type by its text.
pub(crate) fn by_text(
    alloc: Global,
    words: &Names<TypeEntry<'_>>,
    ty: &TypeName,
) -> Result<Ty, Memory>
    ensures { IfOk result (λ found. found ≡ by_text words.now ty.now) }
{
    match ty {
        TypeName::Int(_) => Ok(Ty::Int),
        TypeName::Bool(_) => Ok(Ty::Bool),
        TypeName::Named(id) => text_type(words, id),
        TypeName::List(_, part) => list_type(alloc, by_text(alloc, words, part.get())?),
        TypeName::Opt(_, part) => option_type(alloc, by_text(alloc, words, part.get())?),
    }
}

/// The enum of these variants, each name once.
fn made_enum<'m>(alloc: Global, variants: &'m [Id]) -> Result<Made<'m>, Memory>
    ensures { IfOk result (λ made. made ≡ own.Enum (with_names [] variants.now)) }
{
    let mut names = Names::new(alloc);
    for id in variants {
        add_name(&mut names, id.name.as_slice())?;
    }
    Ok(Made::of_variants(names))
}

/// Adds a field, unless one has its name.
fn add_field<'m>(
    alloc: Global,
    words: &Names<TypeEntry<'_>>,
    fields: &mut Names<Member<'m>>,
    typed: &'m Typed,
) -> Result<(), Memory>
    ensures { OnOk result (fields.new ≡ added field_name fields.old (record { name = typed.now.name.name; ty = by_text words.now typed.now.ty })) }
{
    let ty = by_text(alloc, words, &typed.ty)?;
    put(fields, Member::new(typed.name.name.as_slice(), ty))
}

/// The record of these fields: of two of one name the first counts.
fn made_rec<'m>(
    alloc: Global,
    words: &Names<TypeEntry<'_>>,
    typed: &'m [Typed],
) -> Result<Made<'m>, Memory>
    ensures { IfOk result (λ made. made ≡ own.Rec (text_fields words.now [] typed.now)) }
{
    let mut fields = Names::new(alloc);
    for field in typed {
        add_field(alloc, words, &mut fields, field)?;
    }
    Ok(Made::of_fields(fields))
}

fn with_shape<'m>(
    alloc: Global,
    words: &Names<TypeEntry<'_>>,
    shapes: &mut Seq<Made<'m>>,
    decl: &'m Decl,
) -> Result<(), Memory>
    ensures { OnOk result (shapes.new ≡ with_shape words.now shapes.old decl.now) }
{
    match decl {
        Decl::Enum { variants, .. } => shapes.push(made_enum(alloc, variants.as_slice())?),
        Decl::Rec { fields, .. } => shapes.push(made_rec(alloc, words, fields.as_slice())?),
        _ => Ok(()),
    }
}

/// Adds the types that are declared, in text order.
pub(crate) fn add_shapes<'m>(
    alloc: Global,
    words: &Names<TypeEntry<'_>>,
    shapes: &mut Seq<Made<'m>>,
    decls: &'m [Decl],
) -> Result<(), Memory>
    ensures { OnOk result (shapes.new ≡ shapes_from words.now shapes.old decls.now) }
{
    for decl in decls {
        with_shape(alloc, words, shapes, decl)?;
    }
    Ok(())
}

/// The depth of the deepest field.
fn deepest(depths: &[u32], fields: &[Entry<Member<'_>>]) -> u32
    ensures { result ≡ deepest depths.now 0 fields.now }
{
    let mut depth = 0u32;
    for field in fields {
        depth = depth.max(depth_of(depths, field.get().ty()));
    }
    depth
}

fn shape_depth(depths: &[u32], shape: &Made<'_>) -> u32
    ensures { result ≡ shape_depth depths.now shape.now }
{
    match shape.fields() {
        Some(fields) => deeper(deepest(depths, fields.as_slice())),
        None => 0,
    }
}

/// Adds how deep each of these types is, by those before it.
pub(crate) fn add_depths(depths: &mut Seq<u32>, shapes: &[Made<'_>]) -> Result<(), Memory>
    ensures { OnOk result (depths.new ≡ depths_from depths.old shapes.now) }
{
    for shape in shapes {
        let depth = shape_depth(depths.as_slice(), shape);
        depths.push(depth)?;
    }
    Ok(())
}

/// The types of parameters.
pub(crate) fn text_params(
    alloc: Global,
    words: &Names<TypeEntry<'_>>,
    params: &[Typed],
) -> Result<Seq<Ty>, Memory>
    ensures { IfOk result (λ found. found ≡ text_params words.now params.now) }
{
    let mut types = Seq::new(alloc);
    for param in params {
        add_type(alloc, words, &mut types, param)?;
    }
    Ok(types)
}

/// Adds the type of a parameter.
fn add_type(
    alloc: Global,
    words: &Names<TypeEntry<'_>>,
    types: &mut Seq<Ty>,
    param: &Typed,
) -> Result<(), Memory>
    ensures { OnOk result (types.new ≡ types.old ++ by_text words.now param.now.ty ∷ []) }
{
    types.push(by_text(alloc, words, &param.ty)?)
}

/// Adds a port, unless one has its name.
fn add_port<'m>(
    alloc: Global,
    words: &Names<TypeEntry<'_>>,
    ports: &mut Names<PortEntry<'m>>,
    port: &'m PortDecl,
) -> Result<(), Memory>
    ensures { OnOk result (ports.new ≡ added port_name ports.old (record { out = port.now.out; name = port.now.name.name; ty = by_text words.now port.now.ty })) }
{
    let ty = by_text(alloc, words, &port.ty)?;
    put(
        ports,
        PortEntry::new(port.out, port.name.name.as_slice(), ty),
    )
}

/// Ports: of two of one name the first counts.
fn text_ports<'m>(
    alloc: Global,
    words: &Names<TypeEntry<'_>>,
    ports: &'m [PortDecl],
) -> Result<Names<PortEntry<'m>>, Memory>
    ensures { IfOk result (λ found. found ≡ text_ports words.now [] ports.now) }
{
    let mut found = Names::new(alloc);
    for port in ports {
        add_port(alloc, words, &mut found, port)?;
    }
    Ok(found)
}

/// Adds a model, unless one has its name.
fn add_model<'m>(
    alloc: Global,
    words: &Names<TypeEntry<'_>>,
    models: &mut Names<ModelEntry<'m>>,
    name: &'m Id,
    params: &'m [Typed],
    ports: &'m [PortDecl],
) -> Result<(), Memory>
    ensures { OnOk result (models.new ≡ added model_name models.old (record { name = name.now.name; params = text_params words.now params.now; ports = text_ports words.now [] ports.now })) }
{
    let params = text_params(alloc, words, params)?;
    let ports = text_ports(alloc, words, ports)?;
    put(models, ModelEntry::new(name.name.as_slice(), params, ports))
}

fn with_model<'m>(
    alloc: Global,
    words: &Names<TypeEntry<'_>>,
    models: &mut Names<ModelEntry<'m>>,
    decl: &'m Decl,
) -> Result<(), Memory>
    ensures { OnOk result (models.new ≡ with_model words.now models.old decl.now) }
{
    match decl {
        Decl::Atomic {
            name,
            params,
            body,
            ..
        } => add_model(
            alloc,
            words,
            models,
            name,
            params.as_slice(),
            body.ports.as_slice(),
        ),
        Decl::Network {
            name,
            params,
            ports,
            ..
        } => add_model(
            alloc,
            words,
            models,
            name,
            params.as_slice(),
            ports.as_slice(),
        ),
        _ => Ok(()),
    }
}

/// Adds the models of a file, in text order.
pub(crate) fn add_models<'m>(
    alloc: Global,
    words: &Names<TypeEntry<'_>>,
    models: &mut Names<ModelEntry<'m>>,
    decls: &'m [Decl],
) -> Result<(), Memory>
    ensures { OnOk result (models.new ≡ models_from words.now models.old decls.now) }
{
    for decl in decls {
        with_model(alloc, words, models, decl)?;
    }
    Ok(())
}

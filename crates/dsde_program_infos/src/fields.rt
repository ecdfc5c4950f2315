//! Parameters, state variables and ports, each with its type by its text.

ghost use Rattle.std.specs.Prelude.{◌≡◌, [], ◌∷◌, ◌++◌, IfOk, OnOk};
ghost use Rattle.dsde_language.specs.RuleTables.{by_text};
ghost use Rattle.dsde_language.specs.DeclaredModels.{typed_fields, state_fields, port_fields};

use dsde_check_tables::Known;
use dsde_syntax::given::lists::Memory;
use dsde_syntax::{Id, PortDecl, StateDecl, TypeName, Typed};
use dsde_values::{Field, Seq, Text};
use std::alloc::Global;

/// An identifier with its type.
fn field(alloc: Global, known: &Known<'_>, name: &Id, ty: &TypeName) -> Result<Field, Memory>
    ensures { IfOk result (λ field. field ≡ record { name = name.now.name; ty = by_text known.now.words ty.now }) }
{
    let name = Text::from_slice(alloc, name.name.as_slice())?;
    let ty = known.by_text(alloc, ty)?;
    Ok(Field { name, ty })
}

/// Parameters.
pub(crate) fn typed_fields(
    alloc: Global,
    known: &Known<'_>,
    params: &[Typed],
) -> Result<Seq<Field>, Memory>
    ensures { IfOk result (λ found. found ≡ typed_fields known.now params.now) }
{
    let mut found = Seq::new(alloc);
    for param in params {
        found.push(field(alloc, known, &param.name, &param.ty)?)?;
    }
    Ok(found)
}

/// State variables.
pub(crate) fn state_fields(
    alloc: Global,
    known: &Known<'_>,
    states: &[StateDecl],
) -> Result<Seq<Field>, Memory>
    ensures { IfOk result (λ found. found ≡ state_fields known.now states.now) }
{
    let mut found = Seq::new(alloc);
    for state in states {
        found.push(field(alloc, known, &state.name, &state.ty)?)?;
    }
    Ok(found)
}

/// The ports of one direction.
pub(crate) fn port_fields(
    alloc: Global,
    known: &Known<'_>,
    out: bool,
    ports: &[PortDecl],
) -> Result<Seq<Field>, Memory>
    ensures { IfOk result (λ found. found ≡ port_fields known.now out ports.now) }
{
    let mut found = Seq::new(alloc);
    for port in ports {
        add_port(alloc, known, out, port, &mut found)?;
    }
    Ok(found)
}

/// Adds a port, if it is of this direction.
fn add_port(
    alloc: Global,
    known: &Known<'_>,
    out: bool,
    port: &PortDecl,
    found: &mut Seq<Field>,
) -> Result<(), Memory>
    ensures { OnOk result (found.new ≡ found.old ++ port_fields known.now out (port.now ∷ [])) }
{
    if port.out != out {
        return Ok(());
    }
    found.push(field(alloc, known, &port.name, &port.ty)?)
}

//! The blocks of a body.

ghost use Rattle.std.specs.Prelude.{◌≡◌, length, take, IfOk, OnOk};
ghost use Rattle.dsde_values.specs.declared.types.Ty.TheVariants as ty;
ghost use Rattle.dsde_language.specs.Blocks.{input_seen, inputs_of, inputs_seen, move_of, phase_of, phases_of};
ghost use Rattle.dsde_check_expressions.specs.given.check_scope.Says.{Says};

use crate::statements::inner;
use dsde_check_expressions::given::check_scope::{Around, CheckError, close, copy_type};
use dsde_check_expressions::given::check_tables::{Local, PortEntry, list_type};
use dsde_language::BindingKind;
use dsde_names::Names;
use dsde_syntax::{Body, Memory, Phase};
use dsde_values::Ty;
use std::alloc::Global;

/// The height of the four blocks: output and internal see parameters and state variables, and
/// internal may assign to these; external and confluent see the in ports beside them.
pub(crate) fn phases<'m>(
    around: &Around<'m>,
    ports: &Names<PortEntry<'m>>,
    body: &'m Body,
    scope: &mut Names<Local<'m>>,
) -> Result<u32, CheckError>
    ensures says { Says (phases_of around.now ports.now body.now scope.old) result }
    ensures keeps { OnOk result (scope.new ≡ scope.old) }
{
    let output = phase(around, ports, &body.output, scope)?;
    let internal = moving(around, false, &body.internal, scope)?;
    let depth = scope.len();
    inputs_seen(around.alloc(), scope, ports)?;
    let inputs = inputs(around, body, scope)?;
    close(scope, depth);
    Ok(output.max(internal).max(inputs))
}

/// The height of the block of a phase, if there is one.
fn phase<'m>(
    around: &Around<'m>,
    ports: &Names<PortEntry<'_>>,
    own: &'m Option<Phase>,
    scope: &mut Names<Local<'m>>,
) -> Result<u32, CheckError>
    ensures says { Says (phase_of around.now ports.now own.now scope.old) result }
    ensures keeps { OnOk result (scope.new ≡ scope.old) }
{
    match own {
        None => Ok(0),
        Some(block) => inner(around, ports, block.stmts.as_slice(), 0, scope),
    }
}

/// The height of a block that may assign to state variables, may see `elapsed` and sends nothing.
fn moving<'m>(
    around: &Around<'m>,
    has_elapsed: bool,
    own: &'m Option<Phase>,
    scope: &mut Names<Local<'m>>,
) -> Result<u32, CheckError>
    ensures says { Says (move_of around.now has_elapsed own.now scope.old) result }
    ensures keeps { OnOk result (scope.new ≡ scope.old) }
{
    let ports = Names::new(around.alloc());
    let moving = around.moving(has_elapsed);
    phase(&moving, &ports, own, scope)
}

/// The height of external and confluent, which see the in ports and `elapsed`.
fn inputs<'m>(
    around: &Around<'m>,
    body: &'m Body,
    scope: &mut Names<Local<'m>>,
) -> Result<u32, CheckError>
    ensures says { Says (inputs_of around.now body.now scope.old) result }
    ensures keeps { OnOk result (scope.new ≡ scope.old) }
{
    let external = moving(around, true, &body.external, scope)?;
    let confluent = moving(around, true, &body.confluent, scope)?;
    Ok(external.max(confluent))
}

/// In ports are seen by the lists of the values that came.
fn inputs_seen<'m>(
    alloc: Global,
    scope: &mut Names<Local<'m>>,
    ports: &Names<PortEntry<'m>>,
) -> Result<(), Memory>
    ensures seen { OnOk result (scope.new ≡ inputs_seen scope.old ports.now) }
    ensures grows { OnOk result (take (length scope.old) scope.new ≡ scope.old) }
{
    for port in ports.as_slice() {
        input_seen(alloc, scope, port.get())?;
    }
    Ok(())
}

/// An in port is seen by the list of the values that came, behind other names.
fn input_seen<'m>(
    alloc: Global,
    scope: &mut Names<Local<'m>>,
    port: &PortEntry<'m>,
) -> Result<(), Memory>
    ensures seen { OnOk result (scope.new ≡ input_seen scope.old port.now) }
    ensures grows { OnOk result (take (length scope.old) scope.new ≡ scope.old) }
{
    if !port.is_out() {
        let ty = values_type(alloc, port)?;
        scope.insert(Local::new(port.word(), ty, BindingKind::Fixed))?;
    }
    Ok(())
}

/// The type of the list of the values that came to a port.
fn values_type(alloc: Global, port: &PortEntry<'_>) -> Result<Ty, Memory>
    ensures { IfOk result (λ own. own ≡ ty.List port.now.ty) }
{
    list_type(alloc, copy_type(alloc, port.ty())?)
}

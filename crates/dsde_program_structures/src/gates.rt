//! The ports of networks, executives and components, in tables by name.

ghost use Rattle.std.specs.Prelude.{◌≡◌, [], ◌∷◌, ◌++◌, false, true, map, IfOk, OnOk};
ghost use Rattle.dsde_language.specs.Names.{with_slots};
ghost use Rattle.dsde_language.specs.DeclaredModels.{port_fields};
ghost use Rattle.dsde_language.specs.DeclaredStructures.{directed};
ghost use Rattle.dsde_program_structures.specs.Sides.{gate_of, gates_of};

use crate::gate::Gate;
use dsde_language::given::names::{Entry, Names};
use dsde_lists::{Boxed, Memory};
use dsde_program_expressions::given::check_tables::{
    Known, Member, ModelEntry, PortEntry, copy_type,
};
use dsde_program_expressions::given::program_slots::{bind, ports_scope};
use dsde_syntax::PortDecl;
use dsde_values::Seq;
use std::alloc::Global;

/// The ports that are declared.
pub(crate) fn declared<'m>(
    alloc: Global,
    known: &Known<'_>,
    ports: &'m [PortDecl],
) -> Result<Boxed<Gate<'m>>, Memory>
    ensures ins { IfOk result (λ gate. gate.ins ≡ with_slots [] (port_fields known.now false ports.now)) }
    ensures outs { IfOk result (λ gate. gate.outs ≡ with_slots [] (port_fields known.now true ports.now)) }
{
    let ins = ports_scope(alloc, known, false, ports)?;
    let outs = ports_scope(alloc, known, true, ports)?;
    Ok(Boxed::new(alloc, Gate { ins, outs })?)
}

/// Adds a port, if it is of this direction.
fn see_port<'m>(
    alloc: Global,
    out: bool,
    port: &PortEntry<'m>,
    found: &mut Names<Member<'m>>,
) -> Result<(), Memory>
    ensures { OnOk result (found.new ≡ with_slots found.old (directed out (port.now ∷ []))) }
{
    if port.is_out() != out {
        return Ok(());
    }
    bind(found, port.word(), copy_type(alloc, port.ty())?)
}

/// Adds the ports of one direction.
fn see_ports<'m>(
    alloc: Global,
    out: bool,
    ports: &[Entry<PortEntry<'m>>],
    found: &mut Names<Member<'m>>,
) -> Result<(), Memory>
    ensures { OnOk result (found.new ≡ with_slots found.old (directed out ports.now)) }
{
    for port in ports {
        see_port(alloc, out, port.get(), found)?;
    }
    Ok(())
}

/// The ports of one direction.
fn directed<'m>(
    alloc: Global,
    out: bool,
    ports: &[Entry<PortEntry<'m>>],
) -> Result<Names<Member<'m>>, Memory>
    ensures { IfOk result (λ found. found ≡ with_slots [] (directed out ports.now)) }
{
    let mut found = Names::new(alloc);
    see_ports(alloc, out, ports, &mut found)?;
    Ok(found)
}

/// The ports of a model.
fn gate_of<'m>(alloc: Global, model: &ModelEntry<'m>) -> Result<Gate<'m>, Memory>
    ensures { IfOk result (λ gate. gate ≡ gate_of model.now) }
{
    let ins = directed(alloc, false, model.ports().as_slice())?;
    let outs = directed(alloc, true, model.ports().as_slice())?;
    Ok(Gate { ins, outs })
}

/// Adds the ports of models, one after another.
fn add_gates<'m>(
    alloc: Global,
    models: &[Entry<ModelEntry<'m>>],
    gates: &mut Seq<Gate<'m>>,
) -> Result<(), Memory>
    ensures { OnOk result (gates.new ≡ gates.old ++ map gate_of models.now) }
{
    for model in models {
        gates.push(gate_of(alloc, model.get())?)?;
    }
    Ok(())
}

/// The ports of each model of a file, at the model's number.
pub(crate) fn gates<'m>(alloc: Global, known: &Known<'m>) -> Result<Seq<Gate<'m>>, Memory>
    ensures { IfOk result (λ gates. gates ≡ gates_of known.now) }
{
    let mut gates = Seq::new(alloc);
    add_gates(alloc, known.models().as_slice(), &mut gates)?;
    Ok(gates)
}

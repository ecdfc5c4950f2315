//! What a component or an executive sends, port by port.

ghost use Rattle.std.specs.Prelude.{◌≡◌, ◌<◌, ◌^◌, length, IfOk};
ghost use Rattle.dsde_sim_tree.specs.given.formalism.Leaf.{Gives, is_due, sent_at};
ghost use Rattle.dsde_executive.specs.given.system.Program.{system};
ghost use Rattle.dsde_executive.specs.given.system.Fitting.{FitsLeaf, FitsSends};
ghost use Rattle.dsde_sim_tree.specs.Output.{by_port, values_at, sent};
ghost use Rattle.dsde_sim_starting.specs.Fitting.{FitsBodySent};

use dsde_executive::given::check_tables::narrow;
use dsde_executive::given::program::Program;
use dsde_executive::given::sound_structures::{reach_covers, sent_fits};
use dsde_faults::LeafEnd;
use dsde_sim_gathering::given::atomic::{output_leaf, ports_out};
use dsde_sim_tree::given::formalism::Leaf;
use dsde_values::{Item, Memory, Seq, Values, When, copy_value};
use std::alloc::Global;

/// Whether the next internal event of a component or an executive is at this time.
pub fn is_due(leaf: &Leaf, time: u64) -> bool
    ensures { result ≡ is_due leaf.now time }
{
    match leaf.next {
        When::At(next) => next == time,
        When::Never => false,
    }
}

/// The values that items have, port by port.
pub fn by_port(alloc: Global, ports: u32, items: &[Item]) -> Result<Seq<Values>, Memory>
    ensures value { IfOk result (λ got. got ≡ by_port ports items.now) }
    ensures ports { IfOk result (λ got. length got ≡ ports) }
    ensures few { IfOk result (λ got. length got < 2 ^ 32) }
{
    let got = from_first(alloc, ports, items)?;
    Ok(got)
}

/// The values that items have at so many ports, from the first.
fn from_first(alloc: Global, ports: u32, items: &[Item]) -> Result<Seq<Values>, Memory>
    ensures { IfOk result (λ got. got ≡ by_port ports items.now) }
{
    let mut got = Seq::new(alloc);
    for port in 0..ports {
        got.push(values_at(alloc, items, port)?)?;
    }
    Ok(got)
}

fn values_at(alloc: Global, items: &[Item], port: u32) -> Result<Values, Memory>
    ensures { IfOk result (λ values. values ≡ values_at items.now port) }
{
    let mut values = Seq::new(alloc);
    for item in items {
        if item.port == port {
            values.push(copy_value(alloc, &item.value)?)?;
        }
    }
    Ok(values)
}

/// What is sent at this time: the output where it is due, else nothing.
fn sent_at(alloc: Global, program: &Program, leaf: &Leaf, time: u64) -> Result<Seq<Item>, LeafEnd>
    requires { FitsLeaf program.now leaf.now }
    ensures gives { Gives (sent_at (system program.now) leaf.now time) result }
    ensures fits { IfOk result (λ items. FitsSends program.now leaf.now.model.0 items) }
{
    if !is_due(leaf, time) {
        return Ok(Seq::new(alloc));
    }
    output_leaf(alloc, program, leaf)
}

/// What a component or an executive sends at this time, port by port.
pub(crate) fn sent(
    alloc: Global,
    program: &Program,
    leaf: &Leaf,
    time: u64,
) -> Result<Seq<Values>, LeafEnd>
    requires { FitsLeaf program.now leaf.now }
    ensures gives { Gives (sent (system program.now) leaf.now time) result }
    ensures fits { IfOk result (λ sent. FitsBodySent program.now leaf.now.model.0 sent) }
    ensures few { IfOk result (λ sent. length sent < 2 ^ 32) }
{
    sent_fits();
    reach_covers();
    let items = sent_at(alloc, program, leaf, time)?;
    let ports = narrow(ports_out(program, leaf.model))?;
    Ok(by_port(alloc, ports, items.as_slice())?)
}

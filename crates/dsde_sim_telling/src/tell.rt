//! Events, each told by a call of its own.

ghost use Rattle.std.specs.Prelude.{◌≡◌, ◌<◌, ◌^◌, ◌++◌, ◌∷◌, [], length, OnOk, OnErr};
ghost use Rattle.dsde_sim_tree.specs.declared.event.Event.TheVariants.{AddNet, AddLeaf, Get, Drop};
ghost use Rattle.dsde_sim_tree.specs.Told.{IsCut, below};
ghost use Rattle.dsde_sim_tree.specs.Move.{gets_at, gets_from};
ghost use Rattle.dsde_sim_tree.specs.Output.{outs_at, outs_from};

use crate::paths::{below, copy_path};
use dsde_language::ModelId;
use dsde_sim_tree::Event;
use dsde_sim_tree::given::formalism::Leaf;
use dsde_values::{Memory, Name, Path, Seq, Value, Values, copy_value, copy_values};
use std::alloc::Global;

/// Tells that a network starts.
pub fn tell_net(
    alloc: Global,
    path: &Path,
    model: ModelId,
    events: &mut Seq<Event>,
) -> Result<(), Memory>
    ensures ok { OnOk result (events.new ≡ events.old ++ AddNet path.now model ∷ []) }
    ensures err { OnErr result (events.new ≡ events.old) }
{
    events.push(Event::AddNet {
        path: copy_path(alloc, path)?,
        model,
    })
}

/// Tells that a component or an executive has started.
pub fn tell_leaf(
    alloc: Global,
    path: &Path,
    model: ModelId,
    leaf: &Leaf,
    events: &mut Seq<Event>,
) -> Result<(), Memory>
    ensures ok { OnOk result (events.new ≡ events.old ++ AddLeaf path.now model leaf.now.state leaf.now.next ∷ []) }
    ensures err { OnErr result (events.new ≡ events.old) }
{
    events.push(Event::AddLeaf {
        path: copy_path(alloc, path)?,
        model,
        state: copy_values(alloc, leaf.state.as_slice())?,
        next: leaf.next,
    })
}

/// Tells that the component with this name of the network at a path is dropped with all its parts.
pub fn tell_drop(
    alloc: Global,
    path: &Path,
    name: &Name,
    count: u64,
    events: &mut Seq<Event>,
) -> Result<(), Memory>
    ensures ok { OnOk result (events.new ≡ events.old ++ Drop (below path.now name.now) count ∷ []) }
    ensures err { OnErr result (events.new ≡ events.old) }
{
    events.push(Event::Drop {
        path: below(alloc, path, name)?,
        count,
    })
}

/// Tells what a component or an executive receives, port by port in declaration order.
pub fn tell_gets(
    alloc: Global,
    path: &Path,
    model: ModelId,
    got: &[Values],
    events: &mut Seq<Event>,
) -> Result<(), Memory>
    requires { length got.now < 2 ^ 32 }
    ensures ok { OnOk result (events.new ≡ events.old ++ gets_from path.now model 0 got.now) }
    ensures cut { IsCut events.old (gets_from path.now model 0 got.now) events.new }
{
    for (port, values) in got.iter().enumerate() {
        tell_got(alloc, path, model, port as u32, values.as_slice(), events)?;
    }
    Ok(())
}

fn tell_got(
    alloc: Global,
    path: &Path,
    model: ModelId,
    port: u32,
    values: &[Value],
    events: &mut Seq<Event>,
) -> Result<(), Memory>
    ensures ok { OnOk result (events.new ≡ events.old ++ gets_at path.now model port values.now) }
    ensures cut { IsCut events.old (gets_at path.now model port values.now) events.new }
{
    for value in values {
        tell_get(alloc, path, model, port, value, events)?;
    }
    Ok(())
}

fn tell_get(
    alloc: Global,
    path: &Path,
    model: ModelId,
    port: u32,
    value: &Value,
    events: &mut Seq<Event>,
) -> Result<(), Memory>
    ensures ok { OnOk result (events.new ≡ events.old ++ Get path.now model port value.now ∷ []) }
    ensures err { OnErr result (events.new ≡ events.old) }
{
    events.push(Event::Get {
        path: copy_path(alloc, path)?,
        model,
        port,
        value: copy_value(alloc, value)?,
    })
}

/// Tells what the root sends, port by port in declaration order.
pub fn tell_outs(alloc: Global, sent: &[Values], events: &mut Seq<Event>) -> Result<(), Memory>
    requires { length sent.now < 2 ^ 32 }
    ensures ok { OnOk result (events.new ≡ events.old ++ outs_from 0 sent.now) }
    ensures cut { IsCut events.old (outs_from 0 sent.now) events.new }
{
    for (port, values) in sent.iter().enumerate() {
        tell_out(alloc, port as u32, values.as_slice(), events)?;
    }
    Ok(())
}

fn tell_out(
    alloc: Global,
    port: u32,
    values: &[Value],
    events: &mut Seq<Event>,
) -> Result<(), Memory>
    ensures ok { OnOk result (events.new ≡ events.old ++ outs_at port values.now) }
    ensures cut { IsCut events.old (outs_at port values.now) events.new }
{
    for value in values {
        events.push(Event::Out {
            port,
            value: copy_value(alloc, value)?,
        })?;
    }
    Ok(())
}

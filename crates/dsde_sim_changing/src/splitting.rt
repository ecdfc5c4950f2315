//! Which components of a network survive a change of its structure.

ghost use Rattle.std.specs.Prelude.{◌≡◌, ◌+◌, ◌<◌, ◌^◌, [], ◌∷◌, ◌++◌, map, IfOk, OnOk};
ghost use Rattle.dsde_sim_tree.specs.Told.{IsCut};
ghost use Rattle.dsde_sim_tree.specs.given.structure.Survival.{AreInOrder, IsInOrder, survives as stays};
ghost use Rattle.dsde_sim_tree.specs.Tree.{model_of, args_of, entry_of, parts_of_kid, parts_of_kids, name_of};
ghost use Rattle.dsde_sim_tree.specs.Move.{gone, kept, drop_of};
ghost use Rattle.dsde_sim_changing.specs.Heads.{from_name, is_first};

use crate::counting::parts;
use dsde_language::ModelId;
use dsde_sim_starting::given::sim_telling::tell_drop;
use dsde_sim_tree::given::structure::Entry;
use dsde_sim_tree::given::values_equality::are_same;
use dsde_sim_tree::{Event, Kid, Sim};
use dsde_values::{Memory, Name, Path, Seq, Value};
use std::alloc::Global;

/// The model of a simulator.
fn model_of(sim: &Sim) -> ModelId
    ensures { result ≡ model_of sim.now }
{
    match sim {
        Sim::Leaf(leaf) => leaf.model,
        Sim::Net(net) => net.get().model,
    }
}

/// The arguments of a simulator.
fn args_of(sim: &Sim) -> &[Value]
    ensures { result.now ≡ args_of sim.now }
{
    match sim {
        Sim::Leaf(leaf) => leaf.args.as_slice(),
        Sim::Net(net) => net.get().args.as_slice(),
    }
}

/// Whether a component survives as an entry: it has its name and its model, and the entry is soft or has
/// its arguments.
fn is_entry_of(kid: &Kid, entry: &Entry) -> bool
    ensures { result ≡ stays (entry_of kid.now) entry.now }
{
    kid.name == entry.name
        && model_of(&kid.sim).0 == entry.model.0
        && (entry.soft || are_same(args_of(&kid.sim), entry.args.as_slice()))
}

/// Whether a component survives as the first of these entries.
fn is_first(entries: &[Entry], kid: &Kid) -> bool
    ensures { result ≡ is_first entries.now kid.now }
{
    match entries.first() {
        Some(entry) => is_entry_of(kid, entry),
        None => false,
    }
}

/// The entries from a name on.
fn from_name<'a>(entries: &'a [Entry], name: &Name) -> &'a [Entry]
    ensures { result.now ≡ from_name name.now entries.now }
{
    let mut rest = entries;
    while let Some((first, later)) = rest.split_first() {
        if first.name >= *name {
            break;
        }
        rest = later;
    }
    rest
}

/// Drops the components that do not survive a change to these entries, and tells it. Gives those that
/// do, and the room with what the dropped ones gave back.
pub fn split(
    alloc: Global,
    entries: &[Entry],
    kids: Seq<Kid>,
    path: &Path,
    room: u64,
    events: &mut Seq<Event>,
) -> Result<(Seq<Kid>, u64), Memory>
    requires few { parts_of_kids kids + room < 2 ^ 64 }
    requires kids { AreInOrder (map name_of kids) }
    requires entries { IsInOrder entries.now }
    ensures kept { IfOk result (λ split. split.0 ≡ kept entries.now kids) }
    ensures room { IfOk result (λ split. split.1 ≡ room + parts_of_kids (gone entries.now kids)) }
    ensures all { IfOk result (λ split. parts_of_kids split.0 + split.1 ≡ parts_of_kids kids + room) }
    ensures ok { OnOk result (events.new ≡ events.old ++ map (drop_of path.now) (gone entries.now kids)) }
    ensures cut { IsCut events.old (map (drop_of path.now) (gone entries.now kids)) events.new }
{
    let mut kept = Seq::new(alloc);
    let mut room = room;
    let mut rest = entries;
    for kid in kids.into_vec() {
        rest = from_name(rest, &kid.name);
        if is_first(rest, &kid) {
            kept.push(kid)?;
        } else {
            room += drop_kid(alloc, kid, path, events)?;
        }
    }
    Ok((kept, room))
}

/// Drops a component, and tells it. Gives the number of its parts.
fn drop_kid(alloc: Global, kid: Kid, path: &Path, events: &mut Seq<Event>) -> Result<u64, Memory>
    requires { parts_of_kid kid < 2 ^ 64 }
    ensures count { IfOk result (λ count. count ≡ parts_of_kid kid) }
    ensures ok { OnOk result (events.new ≡ events.old ++ drop_of path.now kid ∷ []) }
    ensures cut { IsCut events.old (drop_of path.now kid ∷ []) events.new }
{
    let count = parts(&kid.sim);
    tell_drop(alloc, path, &kid.name, count, events)?;
    Ok(count)
}

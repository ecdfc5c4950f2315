//! What the root sends is told.

ghost use Rattle.std.specs.Prelude.{◌≡◌, ◌++◌, ◌∷◌, ◌<◌, ◌^◌, [], length, OnErr, OnOk};
ghost use Rattle.dsde_sim_tree.specs.Told.{IsCut};
ghost use Rattle.dsde_sim_tree.specs.Output.{by_port, outs_from};
ghost use Rattle.dsde_core_moving.specs.given.core_moves.Movers.{ports_of};

use dsde_core_moving::given::core_moves::Sent;
use dsde_core_moving::given::sim_telling::tell_outs;
use dsde_core_outputs::given::core_parcels::into_ports;
use dsde_sim_tree::Event;
use dsde_values::{Item, Memory, Seq};
use std::alloc::Global;

/// Tells an item that the root sends, which has so many ports.
fn tell_item(ports: u32, item: Item, events: &mut Seq<Event>) -> Result<(), Memory>
    ensures ok { OnOk result (events.new ≡ events.old ++ outs_from 0 (by_port ports (item ∷ []))) }
    ensures err { OnErr result (events.new ≡ events.old) }
{
    if item.port >= ports {
        drop(item);
        return Ok(());
    }
    events.push(Event::Out {
        port: item.port,
        value: item.value,
    })
}

/// Tells items that the root sends, port by port: one by itself, and more by lists of them.
fn tell_items(
    alloc: Global,
    ports: u32,
    items: Seq<Item>,
    events: &mut Seq<Event>,
) -> Result<(), Memory>
    ensures ok { OnOk result (events.new ≡ events.old ++ outs_from 0 (by_port ports items)) }
    ensures cut { IsCut events.old (outs_from 0 (by_port ports items)) events.new }
{
    if items.len() > 1 {
        let sent = into_ports(alloc, ports, items)?;
        return tell_outs(alloc, sent.as_slice(), events);
    }
    let mut items = items;
    match items.pop() {
        Some(item) => tell_item(ports, item, events),
        None => Ok(()),
    }
}

/// Tells what the root sends, port by port in declaration order.
pub(crate) fn tell_sent(alloc: Global, sent: Sent, events: &mut Seq<Event>) -> Result<(), Memory>
    requires { length (ports_of sent) < 2 ^ 32 }
    ensures ok { OnOk result (events.new ≡ events.old ++ outs_from 0 (ports_of sent)) }
    ensures cut { IsCut events.old (outs_from 0 (ports_of sent)) events.new }
{
    match sent {
        Sent::Ports(ports) => tell_outs(alloc, ports.as_slice(), events),
        Sent::Items { ports, items } => tell_items(alloc, ports, items, events),
    }
}

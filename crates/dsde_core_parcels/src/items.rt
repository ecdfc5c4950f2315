//! Items port by port, whose values are moved.

ghost use Rattle.std.specs.Prelude.{◌≡◌, ◌<◌, ◌^◌, ◌∷◌, [], length, IfOk, OnOk};
ghost use Rattle.dsde_sim_tree.specs.Output.{by_port};
ghost use Rattle.dsde_core_moves.specs.given.sim_gathering.Boxes.{added};
ghost use Rattle.dsde_core_parcels.specs.Ports.{put_all};

use crate::ports::empty_ports;
use dsde_lists::Memory;
use dsde_values::{Item, Seq, Values};
use std::alloc::Global;

/// The value of an item comes behind what is there at its port.
fn put(ports: &mut Seq<Values>, item: Item) -> Result<(), Memory>
    ensures { OnOk result (ports.new ≡ added item.port (item.value ∷ []) ports.old) }
{
    match ports.get_mut(item.port as usize) {
        Some(values) => values.push(item.value),
        None => Ok(()),
    }
}

/// One after another.
fn put_each(ports: Seq<Values>, items: Seq<Item>) -> Result<Seq<Values>, Memory>
    ensures { IfOk result (λ got. got ≡ put_all items ports) }
{
    let mut got = ports;
    for item in items.into_vec() {
        put(&mut got, item)?;
    }
    Ok(got)
}

/// The values of items, port by port, in one pass.
pub fn into_ports(alloc: Global, ports: u32, items: Seq<Item>) -> Result<Seq<Values>, Memory>
    ensures value { IfOk result (λ got. got ≡ by_port ports items) }
    ensures few { IfOk result (λ got. length got < 2 ^ 32) }
{
    let none = empty_ports(alloc, ports as usize)?;
    let got = put_each(none, items)?;
    Ok(got)
}

//! What comes to a target, port by port.

ghost use Rattle.std.specs.Prelude.{◌≡◌, ◌++◌, IfOk, OnOk};
ghost use Rattle.dsde_core_moves.specs.given.sim_gathering.Boxes.{added, empty_ports};
ghost use Rattle.dsde_core_parcels.specs.Inboxes.{spread};
ghost use Rattle.dsde_core_parcels.specs.Ports.{add_all};

use crate::inbox::Get;
use dsde_lists::Memory;
use dsde_values::{Seq, Values};
use std::alloc::Global;

/// Values behind others.
fn append(values: &mut Values, more: Values) -> Result<(), Memory>
    ensures { OnOk result (values.new ≡ values.old ++ more) }
{
    for value in more.into_vec() {
        values.push(value)?;
    }
    Ok(())
}

/// What comes to a port comes behind what is there.
fn add(ports: &mut Seq<Values>, get: Get) -> Result<(), Memory>
    ensures { OnOk result (ports.new ≡ added get.port get.values ports.old) }
{
    match ports.get_mut(get.port as usize) {
        Some(values) => append(values, get.values),
        None => Ok(()),
    }
}

/// No values yet at each of so many ports.
pub(crate) fn empty_ports(alloc: Global, ports: usize) -> Result<Seq<Values>, Memory>
    ensures { IfOk result (λ got. got ≡ empty_ports ports) }
{
    let mut got = Seq::new(alloc);
    for _port in 0..ports {
        got.push(Seq::new(alloc))?;
    }
    Ok(got)
}

/// One after another.
fn add_each(ports: Seq<Values>, gets: Seq<Get>) -> Result<Seq<Values>, Memory>
    ensures { IfOk result (λ got. got ≡ add_all gets ports) }
{
    let mut got = ports;
    for get in gets.into_vec() {
        add(&mut got, get)?;
    }
    Ok(got)
}

/// What comes to a target at each of so many ports.
pub fn spread(alloc: Global, ports: usize, gets: Seq<Get>) -> Result<Seq<Values>, Memory>
    ensures { IfOk result (λ got. got ≡ spread ports gets) }
{
    let none = empty_ports(alloc, ports)?;
    let got = add_each(none, gets)?;
    Ok(got)
}

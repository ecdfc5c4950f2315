//! Networks and components that lie in a grove, copied along the wiring.

ghost use Rattle.std.specs.Prelude.{◌≡◌, map, IfOk, IsSome, Some};
ghost use Rattle.std.specs.List.{AllByRecursion};
ghost use Rattle.dsde_grove.specs.Grove.{value_of};
ghost use Rattle.dsde_routes_wiring.specs.declared.wiring.WiredKid.TheViews.{out-Wiring};
ghost use Rattle.dsde_core_moving.specs.given.core_flat.Scheduled.{held_leaf};
ghost use Rattle.dsde_core_moving.specs.given.core_flat.Shown.{net_under, kid_under};
ghost use Rattle.dsde_core.specs.Live.{IsLive, KidIsLive};

use crate::held::{leaf_under, model_under};
use crate::links::copy_links;
use dsde_bank::Handle;
use dsde_base::Steps;
use dsde_core_moving::given::core_flat::Spot;
use dsde_grove::Grove;
use dsde_lists::{Boxed, Memory};
use dsde_routes_wiring::{WiredKid, Wiring};
use dsde_sim_tree::{Kid, Net, Sim};
use dsde_values::Seq;
use std::alloc::Global;
use std::sync::ledger::Ledger;

/// Where a network is live with all that is wired beneath it, so are its executive and its components. A call that
/// does nothing.
fn parts_are_live(_grove: &Grove<Spot>, _handle: Handle, _net: &Wiring)
    requires { IsLive _grove.now _handle (Some _net.now) }
    ensures executive { IsSome (held_leaf (value_of _grove.now (out-Wiring _net.now).boss)) }
    ensures components { AllByRecursion (KidIsLive _grove.now) (out-Wiring _net.now).kids }
{}

/// The network that a handle shows, with what is wired beneath it.
#[cycle(showing)]
pub(crate) fn net_shown<L: Ledger>(
    alloc: Global,
    grove: &Grove<Spot>,
    handle: Handle,
    net: &Wiring,
    looks: &mut Steps<L>,
) -> Result<Boxed<Net>, Memory>
    requires { IsLive grove.now handle (Some net.now) }
    ensures { IfOk result (λ shown. shown ≡ net_under (value_of grove.now) net.now handle) }
{
    parts_are_live(grove, handle, net);
    let (model, args) = model_under(alloc, grove, handle, looks)?;
    let boss = leaf_under(alloc, grove, net.boss, looks)?;
    let kids = kids_shown(alloc, grove, net.kids.as_slice(), looks)?;
    let links = copy_links(alloc, net.links.as_slice())?;
    Boxed::new(
        alloc,
        Net {
            model,
            args,
            boss,
            kids,
            links,
        },
    )
}

/// The components that are wired.
#[cycle(showing)]
fn kids_shown<L: Ledger>(
    alloc: Global,
    grove: &Grove<Spot>,
    kids: &[WiredKid],
    looks: &mut Steps<L>,
) -> Result<Seq<Kid>, Memory>
    requires { AllByRecursion (KidIsLive grove.now) kids.now }
    ensures { IfOk result (λ shown. shown ≡ map (kid_under (value_of grove.now)) kids.now) }
{
    let mut shown = Seq::with_room(alloc, kids.len())?;
    for kid in kids {
        shown.push(kid_shown(alloc, grove, kid, looks)?)?;
    }
    Ok(shown)
}

/// A component that is wired, under its name.
#[cycle(showing)]
fn kid_shown<L: Ledger>(
    alloc: Global,
    grove: &Grove<Spot>,
    kid: &WiredKid,
    looks: &mut Steps<L>,
) -> Result<Kid, Memory>
    requires { KidIsLive grove.now kid.now }
    ensures { IfOk result (λ shown. shown ≡ kid_under (value_of grove.now) kid.now) }
{
    let name = kid.name.copy(alloc)?;
    let sim = match &kid.below {
        None => Sim::Leaf(leaf_under(alloc, grove, kid.handle, looks)?),
        Some(net) => Sim::Net(net_shown(alloc, grove, kid.handle, net.get(), looks)?),
    };
    Ok(Kid { name, sim })
}

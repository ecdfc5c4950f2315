//! A grove of one tree.

ghost use Rattle.std.specs.Prelude.{◌≡◌, ◌+◌, ◌*◌, ◌^◌, ◌<◌, ◌≤◌, [], IfOk};
ghost use Rattle.dsde_grove.specs.Grove.{IsTree};
ghost use Rattle.dsde_sim_tree.specs.Tree.{parts, parts_of_net};
ghost use Rattle.dsde_sim_tree.specs.declared.sim.Sim.TheVariants as variant;
ghost use Rattle.dsde_core_flat.specs.Named.{HasOwnNames};
ghost use Rattle.dsde_core_flat.specs.Scheduled.{IsScheduled};
ghost use Rattle.dsde_core_flat.specs.Stands.{StandsFor};

use crate::Spot;
use crate::grafting::{exec, graft_kids, grow_leaf, schedule};
use dsde_bank::Handle;
use dsde_base::Steps;
use dsde_grove::Grove;
use dsde_lists::{Boxed, Memory};
use dsde_queue::Queue;
use dsde_routes_wiring::{Links, Wiring};
use dsde_sim_tree::given::formalism::Leaf;
use dsde_sim_tree::{Net, Sim};
use std::alloc::Global;
use std::sync::ledger::Ledger;

/// A tree in a grove of its own, with the wiring and the schedule beside it.
#[derive(Drop)]
pub struct Planted {
    pub grove: Grove<Spot>,
    pub queue: Queue,
    pub root: Handle,
    pub wiring: Option<Wiring>,
}

/// A tree becomes a grove with the wiring and the schedule beside it; its leaves are moved, not copied.
/// Counts at most 4 looks for each of its parts. `Memory` where there is none.
pub fn plant<L: Ledger>(alloc: Global, sim: Sim, looks: &mut Steps<L>) -> Result<Planted, Memory>
    requires names { HasOwnNames sim }
    requires births { parts sim < 2 ^ 63 }
    ensures stands { IfOk result (λ made. StandsFor made.grove made.root made.wiring sim) }
    ensures scheduled { IfOk result (λ made. IsScheduled made.grove made.queue.pairs) }
    ensures tree { IfOk result (λ made. IsTree made.grove) }
    ensures next { IfOk result (λ made. made.grove.next_birth ≡ parts sim) }
    ensures ticks { IfOk result (λ made. looks.new ≤ looks.old + 4 * parts sim) }
{
    match sim {
        Sim::Leaf(leaf) => plant_leaf(alloc, leaf),
        Sim::Net(net) => plant_net(alloc, net, looks),
    }
}

/// A component becomes a grove.
fn plant_leaf(alloc: Global, leaf: Leaf) -> Result<Planted, Memory>
    ensures stands { IfOk result (λ made. StandsFor made.grove made.root made.wiring (variant.Leaf leaf)) }
    ensures scheduled { IfOk result (λ made. IsScheduled made.grove made.queue.pairs) }
    ensures tree { IfOk result (λ made. IsTree made.grove) }
    ensures next { IfOk result (λ made. made.grove.next_birth ≡ 1) }
{
    let mut queue = Queue::new(alloc);
    queue.reserve(1)?;
    let next = leaf.next;
    let (grove, root) = Grove::new(alloc, Spot::Leaf(leaf))?;
    schedule(&mut queue, root, next);
    Ok(Planted {
        grove,
        queue,
        root,
        wiring: None,
    })
}

/// A network becomes a grove.
fn plant_net<L: Ledger>(
    alloc: Global,
    net: Boxed<Net>,
    looks: &mut Steps<L>,
) -> Result<Planted, Memory>
    requires names { HasOwnNames (variant.Net net) }
    requires births { parts_of_net net < 2 ^ 63 }
    ensures stands { IfOk result (λ made. StandsFor made.grove made.root made.wiring (variant.Net net)) }
    ensures scheduled { IfOk result (λ made. IsScheduled made.grove made.queue.pairs) }
    ensures tree { IfOk result (λ made. IsTree made.grove) }
    ensures next { IfOk result (λ made. made.grove.next_birth ≡ parts_of_net net) }
    ensures ticks { IfOk result (λ made. looks.new ≤ looks.old + 4 * parts_of_net net) }
{
    let Net {
        model,
        args,
        boss,
        kids,
        links,
    } = net.into_inner();
    let mut queue = Queue::new(alloc);
    let (mut grove, root) = Grove::new(alloc, Spot::Net { model, args })?;
    let boss = grow_leaf(&mut grove, &mut queue, root, exec(alloc)?, boss, looks)?;
    let kids = graft_kids(alloc, &mut grove, &mut queue, root, kids, looks)?;
    let links = Links::of(alloc, links)?;
    let wiring = Wiring {
        me: root,
        boss,
        links,
        kids,
    };
    Ok(Planted {
        grove,
        queue,
        root,
        wiring: Some(wiring),
    })
}

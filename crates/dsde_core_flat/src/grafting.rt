//! A simulator is put into a grove below a live part.

ghost use Rattle.std.specs.Prelude.{◌≡◌, ◌+◌, ◌*◌, ◌^◌, ◌<◌, ◌≤◌, [], ◌∷◌, List, length, map, None, codes, IfOk, OnOk, IsSome};
ghost use Rattle.std.specs.List.{AllByRecursion};
ghost use Rattle.std.specs.FinMap as finmap;
ghost use Rattle.dsde_values.specs.Path.{EXEC};
ghost use Rattle.dsde_sim_tree.specs.Told.{below};
ghost use Rattle.dsde_grove.specs.Grove.{spot, IsTree, Grows};
ghost use Rattle.dsde_bank.specs.declared.handle.Handle.{Handle};
ghost use Rattle.dsde_sim_tree.specs.declared.sim.Sim.TheVariants as variant;
ghost use Rattle.dsde_core_flat.specs.declared.spot.Spot.TheVariants as spot_variant;
ghost use Rattle.dsde_core_flat.specs.Scheduled.{scheduled};
ghost use Rattle.dsde_core_flat.specs.Scheduled.{IsScheduledBut};
ghost use Rattle.dsde_sim_tree.specs.Tree.{parts, parts_of_net, parts_of_kids, entry_of};
ghost use Rattle.dsde_sim_tree.specs.Start.{kid_of};
ghost use Rattle.dsde_routes_wiring.specs.declared.wiring.WiredKid.TheViews.{out-WiredKid};
ghost use Rattle.dsde_core_flat.specs.Grafts.{path_at, IsFree, AreGrafted};
ghost use Rattle.dsde_core_flat.specs.Named.{AreToldApart, HasOwnNames, KidHasOwnNames};
ghost use Rattle.dsde_core_flat.specs.Grafts.{IsRoomFor};

use crate::Spot;
use dsde_bank::Handle;
use dsde_base::Steps;
use dsde_grove::{Grove, GrowEnd};
use dsde_lists::{Boxed, Memory};
use dsde_queue::Queue;
use dsde_routes_wiring::{Links, WiredKid, Wiring};
use dsde_sim_tree::given::formalism::Leaf;
use dsde_sim_tree::{Kid, Net, Sim};
use dsde_values::{Name, Seq, Stem, When};
use std::alloc::Global;
use std::sync::ledger::Ledger;

/// The name of an executive.
pub(crate) fn exec(alloc: Global) -> Result<Name, Memory>
    ensures { IfOk result (λ name. name ≡ EXEC) }
{
    Ok(Name {
        stem: Stem::from_slice(alloc, b"exec")?,
        index: None,
    })
}

/// A part grows below a live one that has none of its name. Counts at most 4 looks.
fn grow<L: Ledger>(
    grove: &mut Grove<Spot>,
    parent: Handle,
    name: Name,
    value: Spot,
    looks: &mut Steps<L>,
) -> Result<Handle, Memory>
    requires tree { IsTree grove.old }
    requires live { IsSome (spot grove.old parent) }
    requires free { IsFree grove.old (below (path_at grove.old parent) name).names }
    requires births { grove.old.next_birth + 1 < 2 ^ 64 }
    ensures grown { IfOk result (Grows grove.old grove.new parent name value) }
    ensures tree { IsTree grove.new }
    ensures fresh { IfOk result (λ kid. finmap.get grove.old.parts kid.birth ≡ None) }
    ensures ticks { looks.new ≤ looks.old + 4 }
{
    match grove.grow(parent, name, value, looks) {
        Ok(handle) => Ok(handle),
        Err((GrowEnd::Memory, _)) => Err(Memory),
        Err((GrowEnd::Stale, _)) => unreachable!(),
        Err((GrowEnd::Taken, _)) => unreachable!(),
    }
}

/// Puts the next event under a handle, if there is one, into the schedule, which has room for it.
pub fn schedule(queue: &mut Queue, handle: Handle, next: When)
    requires { 0 < queue.old.spare }
    ensures { queue.new.pairs ≡ scheduled handle next queue.old.pairs }
{
    if let When::At(time) = next {
        queue.put_reserved(time, handle);
    }
}

/// A component or an executive grows below a live part that has none of its name, and its next event is
/// scheduled. Counts at
/// most 4 looks.
pub(crate) fn grow_leaf<L: Ledger>(
    grove: &mut Grove<Spot>,
    queue: &mut Queue,
    parent: Handle,
    name: Name,
    leaf: Leaf,
    looks: &mut Steps<L>,
) -> Result<Handle, Memory>
    requires tree { IsTree grove.old }
    requires live { IsSome (spot grove.old parent) }
    requires free { IsFree grove.old (below (path_at grove.old parent) name).names }
    requires births { grove.old.next_birth + 1 < 2 ^ 64 }
    ensures grown { IfOk result (Grows grove.old grove.new parent name (spot_variant.Leaf leaf)) }
    ensures waits { (waiting : List Handle) → IsScheduledBut grove.old waiting queue.old.pairs → OnOk result (IsScheduledBut grove.new waiting queue.new.pairs) }
    ensures tree { IsTree grove.new }
    ensures fresh { IfOk result (λ kid. finmap.get grove.old.parts kid.birth ≡ None) }
    ensures longer { OnOk result (length queue.new.pairs ≤ length queue.old.pairs + 1) }
    ensures ticks { looks.new ≤ looks.old + 4 }
{
    queue.reserve(1)?;
    let next = leaf.next;
    let handle = grow(grove, parent, name, Spot::Leaf(leaf), looks)?;
    schedule(queue, handle, next);
    Ok(handle)
}

/// Puts a simulator below a live part, as its component of this name, which no part there has; gives its
/// wiring. Its leaves are moved, not copied, and their next events scheduled. Counts at most 4 looks for
/// each of its parts. `Memory` where there is none: then the grove has some of the parts.
#[cycle(grafting)]
pub fn graft<L: Ledger>(
    alloc: Global,
    grove: &mut Grove<Spot>,
    queue: &mut Queue,
    parent: Handle,
    name: Name,
    sim: Sim,
    looks: &mut Steps<L>,
) -> Result<WiredKid, Memory>
    requires tree { IsTree grove.old }
    requires live { IsSome (spot grove.old parent) }
    requires free { IsFree grove.old (below (path_at grove.old parent) name).names }
    requires names { HasOwnNames sim }
    requires births { grove.old.next_birth + parts sim < 2 ^ 64 }
    ensures grafted { IfOk result (λ kid. AreGrafted grove.old grove.new (path_at grove.old parent) (kid_of name sim ∷ []) (kid ∷ [])) }
    ensures named { IfOk result (λ kid. (out-WiredKid kid).name ≡ name) }
    ensures tree { OnOk result (IsTree grove.new) }
    ensures waits { (waiting : List Handle) → IsScheduledBut grove.old waiting queue.old.pairs → OnOk result (IsScheduledBut grove.new waiting queue.new.pairs) }
    ensures longer { OnOk result (length queue.new.pairs ≤ length queue.old.pairs + parts sim) }
    ensures ticks { OnOk result (looks.new ≤ looks.old + 4 * parts sim) }
{
    let listed = name.copy(alloc)?;
    match sim {
        Sim::Leaf(leaf) => {
            let handle = grow_leaf(grove, queue, parent, name, leaf, looks)?;
            Ok(WiredKid {
                name: listed,
                handle,
                below: None,
            })
        }
        Sim::Net(net) => graft_net(alloc, grove, queue, parent, name, listed, net, looks),
    }
}

/// Puts a network below a live part.
#[cycle(grafting)]
fn graft_net<L: Ledger>(
    alloc: Global,
    grove: &mut Grove<Spot>,
    queue: &mut Queue,
    parent: Handle,
    name: Name,
    listed: Name,
    net: Boxed<Net>,
    looks: &mut Steps<L>,
) -> Result<WiredKid, Memory>
    requires tree { IsTree grove.old }
    requires live { IsSome (spot grove.old parent) }
    requires free { IsFree grove.old (below (path_at grove.old parent) name).names }
    requires names { HasOwnNames (variant.Net net) }
    requires listed { listed ≡ name }
    requires births { grove.old.next_birth + parts_of_net net < 2 ^ 64 }
    ensures grafted { IfOk result (λ kid. AreGrafted grove.old grove.new (path_at grove.old parent) (kid_of name (variant.Net net) ∷ []) (kid ∷ [])) }
    ensures named { IfOk result (λ kid. (out-WiredKid kid).name ≡ name) }
    ensures tree { OnOk result (IsTree grove.new) }
    ensures waits { (waiting : List Handle) → IsScheduledBut grove.old waiting queue.old.pairs → OnOk result (IsScheduledBut grove.new waiting queue.new.pairs) }
    ensures longer { OnOk result (length queue.new.pairs ≤ length queue.old.pairs + parts_of_net net) }
    ensures ticks { OnOk result (looks.new ≤ looks.old + 4 * parts_of_net net) }
{
    let Net {
        model,
        args,
        boss,
        kids,
        links,
    } = net.into_inner();
    let handle = grow(grove, parent, name, Spot::Net { model, args }, looks)?;
    let boss = grow_leaf(grove, queue, handle, exec(alloc)?, boss, looks)?;
    let kids = graft_kids(alloc, grove, queue, handle, kids, looks)?;
    let links = Links::of(alloc, links)?;
    let below = Boxed::new(
        alloc,
        Wiring {
            me: handle,
            boss,
            links,
            kids,
        },
    )?;
    Ok(WiredKid {
        name: listed,
        handle,
        below: Some(below),
    })
}

/// Puts components below a live part that has none of their names, one after another as `graft` does.
#[cycle(grafting)]
pub fn graft_kids<L: Ledger>(
    alloc: Global,
    grove: &mut Grove<Spot>,
    queue: &mut Queue,
    parent: Handle,
    kids: Seq<Kid>,
    looks: &mut Steps<L>,
) -> Result<Seq<WiredKid>, Memory>
    requires tree { IsTree grove.old }
    requires live { IsSome (spot grove.old parent) }
    requires free { AllByRecursion (IsRoomFor grove.old (path_at grove.old parent)) kids }
    requires named { AreToldApart (map entry_of kids) }
    requires names { AllByRecursion KidHasOwnNames kids }
    requires births { grove.old.next_birth + parts_of_kids kids < 2 ^ 64 }
    ensures grafted { IfOk result (λ wired. AreGrafted grove.old grove.new (path_at grove.old parent) kids wired) }
    ensures tree { OnOk result (IsTree grove.new) }
    ensures waits { (waiting : List Handle) → IsScheduledBut grove.old waiting queue.old.pairs → OnOk result (IsScheduledBut grove.new waiting queue.new.pairs) }
    ensures longer { OnOk result (length queue.new.pairs ≤ length queue.old.pairs + parts_of_kids kids) }
    ensures ticks { OnOk result (looks.new ≤ looks.old + 4 * parts_of_kids kids) }
{
    let mut done = Seq::new(alloc);
    for kid in kids.into_vec() {
        let Kid { name, sim } = kid;
        let one = graft(alloc, grove, queue, parent, name, sim, looks)?;
        done.push(one)?;
    }
    Ok(done)
}

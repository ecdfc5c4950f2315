//! Components leave a network.

ghost use Rattle.std.specs.Prelude.{◌≡◌, ◌+◌, ◌*◌, ◌^◌, ◌<◌, ◌≤◌, ◌++◌, ℕ, List, [], ◌∷◌, map, length, IsSome, OnOk, OnErr, IfOk};
ghost use Rattle.std.specs.List.{AllByRecursion};
ghost use Rattle.std.specs.FinMap as finmap;
ghost use Rattle.dsde_bank.specs.declared.handle.Handle.{Handle};
ghost use Rattle.dsde_sim_tree.specs.Told.{IsCut, below};
ghost use Rattle.dsde_sim_tree.specs.declared.event.Event.TheVariants as event;
ghost use Rattle.dsde_core_flat.specs.given.grove.Grove.{spot, value_of, IsTree, DropsSubtree};
ghost use Rattle.dsde_sim_tree.specs.Tree.{parts_of_kids, entry_of};
ghost use Rattle.dsde_sim_tree.specs.Move.{drop_of};
ghost use Rattle.dsde_routes_wiring.specs.declared.wiring.WiredKid.TheViews.{out-Wiring, out-WiredKid};
ghost use Rattle.dsde_core_flat.specs.Named.{AreToldApart, KidHasOwnNames};
ghost use Rattle.dsde_core_flat.specs.Scheduled.{IsScheduledBut};
ghost use Rattle.dsde_core_flat.specs.Stands.{ChangesBeneath, NetStands};
ghost use Rattle.dsde_core_moves.specs.Chosen.{chosen, lost, shown};

use dsde_base::Steps;
use dsde_core_flat::Spot;
use dsde_core_flat::given::grove::Grove;
use dsde_lists::Memory;
use dsde_routes_wiring::{WiredKid, Wiring};
use dsde_sim_changing::given::sim_telling::tell_drop;
use dsde_sim_tree::Event;
use dsde_values::{Path, Seq};
use std::alloc::Global;
use std::sync::ledger::Ledger;

/// Drops one component with all that is beneath it, and tells it. Gives how many parts left.
fn drop_kid<L: Ledger>(
    alloc: Global,
    grove: &mut Grove<Spot>,
    kid: &WiredKid,
    path: &Path,
    events: &mut Seq<Event>,
    looks: &mut Steps<L>,
) -> Result<u64, Memory>
    requires { IsSome (spot grove.old (out-WiredKid kid.now).handle) }
    ensures dropped { OnOk result (DropsSubtree grove.old grove.new (out-WiredKid kid.now).handle) }
    ensures count { IfOk result (λ count. finmap.len grove.new.parts + count ≡ finmap.len grove.old.parts) }
    ensures told { IfOk result (λ count. events.new ≡ events.old ++ event.Drop (below path.now (out-WiredKid kid.now).name) count ∷ []) }
    ensures tree { IsTree grove.new }
    ensures quiet { OnErr result (events.new ≡ events.old) }
    ensures ticks { IfOk result (λ count. looks.new ≤ looks.old + 4 * count + 2) }
{
    let Some(count) = grove.drop_subtree(kid.handle, looks) else {
        unreachable!();
    };
    tell_drop(alloc, path, &kid.name, count, events)?;
    Ok(count)
}

/// Drops those components of a network that do not pass these tests, each with all that is beneath it, and
/// tells it. Gives the room with what they gave back. The schedule serves who stays as it did. Counts at most
/// 6 looks for each part that leaves. `Memory` where there is none: then the first of them have left, as it
/// was told, and one more may have.
pub fn drop_others<L: Ledger>(
    alloc: Global,
    grove: &mut Grove<Spot>,
    wiring: &Wiring,
    keeps: &[bool],
    path: &Path,
    room: u64,
    events: &mut Seq<Event>,
    looks: &mut Steps<L>,
) -> Result<u64, Memory>
    requires tree { IsTree grove.old }
    requires tests { length keeps.now ≡ length (out-Wiring wiring.now).kids }
    requires stands { NetStands grove.old (out-Wiring wiring.now).me (out-Wiring wiring.now).boss path.now (out-Wiring wiring.now).kids }
    requires named { AreToldApart (map entry_of (shown grove.old (out-Wiring wiring.now).kids)) }
    requires inside { AllByRecursion KidHasOwnNames (shown grove.old (out-Wiring wiring.now).kids) }
    requires few { room + parts_of_kids (shown grove.old (lost keeps.now (out-Wiring wiring.now).kids)) < 2 ^ 64 }
    ensures stands { OnOk result (NetStands grove.new (out-Wiring wiring.now).me (out-Wiring wiring.now).boss path.now (chosen keeps.now (out-Wiring wiring.now).kids)) }
    ensures shows { OnOk result (shown grove.new (chosen keeps.now (out-Wiring wiring.now).kids) ≡ shown grove.old (chosen keeps.now (out-Wiring wiring.now).kids)) }
    ensures changes { OnOk result (ChangesBeneath path.now.names grove.old grove.new) }
    ensures itself { OnOk result (value_of grove.new (out-Wiring wiring.now).me ≡ value_of grove.old (out-Wiring wiring.now).me) }
    ensures executive { OnOk result (value_of grove.new (out-Wiring wiring.now).boss ≡ value_of grove.old (out-Wiring wiring.now).boss) }
    ensures born { OnOk result (grove.new.next_birth ≡ grove.old.next_birth) }
    ensures waits { OnOk result ((waiting : List Handle) (pairs : List (ℕ × Handle)) → IsScheduledBut grove.old waiting pairs → IsScheduledBut grove.new waiting pairs) }
    ensures tree { OnOk result (IsTree grove.new) }
    ensures room { IfOk result (λ whole. whole ≡ room + parts_of_kids (shown grove.old (lost keeps.now (out-Wiring wiring.now).kids))) }
    ensures told { OnOk result (events.new ≡ events.old ++ map (drop_of path.now) (shown grove.old (lost keeps.now (out-Wiring wiring.now).kids))) }
    ensures cut { OnErr result (IsCut events.old (map (drop_of path.now) (shown grove.old (lost keeps.now (out-Wiring wiring.now).kids))) events.new) }
    ensures ticks { OnOk result (looks.new ≤ looks.old + 6 * parts_of_kids (shown grove.old (lost keeps.now (out-Wiring wiring.now).kids))) }
{
    let mut kids = wiring.kids.as_slice();
    let mut tests = keeps;
    let mut left = room;
    while let (Some((kid, later)), Some((stays, others))) = (
        kids.split_first(),
        tests.split_first(),
    ) {
        if !*stays {
            left += drop_kid(alloc, grove, kid, path, events, looks)?;
        }
        kids = later;
        tests = others;
    }
    Ok(left)
}

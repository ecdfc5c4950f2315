//! Components start, and are put into a grove below the part of their network.

ghost use Rattle.std.specs.Prelude.{◌≡◌, ◌+◌, ◌*◌, ◌^◌, ◌<◌, ◌≤◌, ℕ, List, [], length, map, false, IfOk, OnOk, IsSome};
ghost use Rattle.std.specs.List.{AllByRecursion};
ghost use Rattle.dsde_bank.specs.declared.handle.Handle.{Handle};
ghost use Rattle.dsde_values.specs.Path.{EXEC};
ghost use Rattle.dsde_values.specs.When.{IsMoment};
ghost use Rattle.dsde_structure.specs.Gather.{is_same_name};
ghost use Rattle.dsde_structure.specs.Survival.{IsInOrder};
ghost use Rattle.dsde_sim_tree.specs.Told.{Tells};
ghost use Rattle.dsde_sim_starting.specs.given.system.Program.{system};
ghost use Rattle.dsde_sim_starting.specs.given.system.Plans.{FitsEntry};
ghost use Rattle.dsde_grove.specs.Grove.{spot, IsTree};
ghost use Rattle.dsde_sim_tree.specs.Tree.{entry_of, parts_of_kids, started_as};
ghost use Rattle.dsde_sim_tree.specs.Start.{start, starts};
ghost use Rattle.dsde_sim_tree.specs.Move.{left_behind};
ghost use Rattle.dsde_sim_starting.specs.Fitting.{FitsKid};
ghost use Rattle.dsde_core_moves.specs.given.core_flat.Grafts.{path_at, AreGrafted};
ghost use Rattle.dsde_core_moves.specs.given.core_flat.Scheduled.{IsScheduledBut};
ghost use Rattle.dsde_core_moves.specs.Chosen.{shown};
ghost use Rattle.dsde_core_moving.specs.Changed.{as_shown, IsRoomAs};

use dsde_bank::Handle;
use dsde_base::Steps;
use dsde_core_moves::given::core_flat::{Spot, graft_kids};
use dsde_grove::Grove;
use dsde_queue::Queue;
use dsde_routes_wiring::WiredKid;
use dsde_sim_starting::given::program::Program;
use dsde_sim_starting::start_kid;
use dsde_sim_tree::{DEEPEST, Event, Kid, TurnEnd};
use dsde_structure::Entry;
use dsde_values::{Path, Seq};
use std::alloc::Global;
use std::sync::ledger::Ledger;

/// How many names may stand behind a path.
fn left_behind(path: &Path) -> u32
    ensures { result ≡ left_behind path.now }
{
    (DEEPEST as usize).saturating_sub(path.names.len()) as u32
}

/// These entries start one after another as components of the network at a path.
fn started(
    alloc: Global,
    program: &Program,
    left: u32,
    entries: Seq<Entry>,
    path: &Path,
    time: u64,
    room: u64,
    events: &mut Seq<Event>,
) -> Result<(Seq<Kid>, u64), TurnEnd>
    requires moment { IsMoment time }
    requires entries { AllByRecursion (FitsEntry program.now) entries }
    ensures told { Tells (starts (start (system program.now) left) entries path.now time room []) events.old events.new result }
    ensures room { IfOk result (λ made. parts_of_kids made.0 + made.1 ≡ room) }
    ensures fits { IfOk result (λ made. AllByRecursion (FitsKid program.now) made.0) }
    ensures are { IfOk result (λ made. map entry_of made.0 ≡ map started_as entries) }
{
    let mut done = Seq::new(alloc);
    let mut room = room;
    for entry in entries.into_vec() {
        let (kid, rest) = start_kid(alloc, program, left, entry, path, time, room, events)?;
        room = rest;
        done.push(kid)?;
    }
    Ok((done, room))
}

/// These entries start one after another as components of the network under a handle, which is told, and are
/// put below it with their next events in the schedule. Gives their wiring and the room left. Counts at most 4
/// looks for each of their parts. A fault ends it, or `Memory` where there is none: then the grove may have
/// some of their parts.
pub fn start_fresh<L: Ledger>(
    alloc: Global,
    program: &Program,
    grove: &mut Grove<Spot>,
    queue: &mut Queue,
    network: Handle,
    entries: Seq<Entry>,
    path: &Path,
    time: u64,
    room: u64,
    events: &mut Seq<Event>,
    looks: &mut Steps<L>,
) -> Result<(Seq<WiredKid>, u64), TurnEnd>
    requires moment { IsMoment time }
    requires entries { AllByRecursion (FitsEntry program.now) entries }
    requires order { IsInOrder entries }
    requires ordinary { AllByRecursion (λ entry. is_same_name EXEC entry.name ≡ false) entries }
    requires tree { IsTree grove.old }
    requires live { IsSome (spot grove.old network) }
    requires here { path_at grove.old network ≡ path.now }
    requires free { AllByRecursion (IsRoomAs grove.old path.now) entries }
    requires births { grove.old.next_birth + room < 2 ^ 64 }
    ensures told { Tells (starts (start (system program.now) (left_behind path.now)) entries path.now time room []) events.old events.new (as_shown grove.new result) }
    ensures grafted { IfOk result (λ made. AreGrafted grove.old grove.new path.now (shown grove.new made.0) made.0) }
    ensures room { IfOk result (λ made. parts_of_kids (shown grove.new made.0) + made.1 ≡ room) }
    ensures fits { IfOk result (λ made. AllByRecursion (FitsKid program.now) (shown grove.new made.0)) }
    ensures are { IfOk result (λ made. map entry_of (shown grove.new made.0) ≡ map started_as entries) }
    ensures waits { (waiting : List Handle) → IsScheduledBut grove.old waiting queue.old.pairs → OnOk result (IsScheduledBut grove.new waiting queue.new.pairs) }
    ensures tree { OnOk result (IsTree grove.new) }
    ensures longer { IfOk result (λ made. length queue.new.pairs ≤ length queue.old.pairs + parts_of_kids (shown grove.new made.0)) }
    ensures ticks { IfOk result (λ made. looks.new ≤ looks.old + 4 * parts_of_kids (shown grove.new made.0)) }
{
    let left = left_behind(path);
    let (kids, rest) = started(alloc, program, left, entries, path, time, room, events)?;
    let fresh = graft_kids(alloc, grove, queue, network, kids, looks)?;
    Ok((fresh, rest))
}

//! A network gets the components of a structure.

ghost use Rattle.std.specs.Prelude.{◌≡◌, ◌+◌, ◌*◌, ◌^◌, ◌<◌, ◌≤◌, ◌++◌, ℕ, List, length, map, false, IfOk, OnOk};
ghost use Rattle.std.specs.List.{AllByRecursion};
ghost use Rattle.dsde_bank.specs.declared.handle.Handle.{Handle};
ghost use Rattle.dsde_values.specs.Path.{EXEC};
ghost use Rattle.dsde_values.specs.When.{IsMoment};
ghost use Rattle.dsde_structure.specs.Gather.{is_same_name};
ghost use Rattle.dsde_structure.specs.Survival.{fresh, names, AreInOrder, IsInOrder};
ghost use Rattle.dsde_sim_tree.specs.Told.{Tells};
ghost use Rattle.dsde_sim_starting.specs.given.system.Program.{system};
ghost use Rattle.dsde_sim_starting.specs.given.system.Plans.{FitsEntry};
ghost use Rattle.dsde_grove.specs.Grove.{value_of, IsTree};
ghost use Rattle.dsde_sim_tree.specs.Tree.{entry_of, parts_of_kids, started_as};
ghost use Rattle.dsde_sim_tree.specs.Move.{change, gone, kept};
ghost use Rattle.dsde_sim_starting.specs.Fitting.{FitsKid};
ghost use Rattle.dsde_sim_movers.specs.Names.{AreNames};
ghost use Rattle.dsde_sim_movers.specs.Work.{work};
ghost use Rattle.dsde_routes_wiring.specs.declared.wiring.WiredKid.TheViews.{out-Wiring};
ghost use Rattle.dsde_routes_wiring.specs.Places.{staying};
ghost use Rattle.dsde_core_moves.specs.given.core_flat.Places.{places_of};
ghost use Rattle.dsde_core_moves.specs.given.core_flat.Scheduled.{IsScheduledBut};
ghost use Rattle.dsde_core_moves.specs.given.core_flat.Stands.{ChangesBeneath, HasBirth, NetStands};
ghost use Rattle.dsde_core_moves.specs.Chosen.{shown};
ghost use Rattle.dsde_core_moves.specs.Compared.{entries_of};
ghost use Rattle.dsde_core_moving.specs.Changed.{changed_to};

use crate::changes_start_the_fresh;
use crate::starting::start_fresh;
use dsde_base::Steps;
use dsde_core_moves::given::core_flat::Spot;
use dsde_core_moves::{drop_others, fresh_entries, names_lost, survivors};
use dsde_grove::Grove;
use dsde_queue::Queue;
use dsde_routes_wiring::{WiredKid, Wiring};
use dsde_sim_movers::steps_tell_their_work;
use dsde_sim_starting::given::program::Program;
use dsde_sim_tree::{Event, TurnEnd};
use dsde_structure::Entry;
use dsde_values::{Name, Path, Seq};
use std::alloc::Global;
use std::sync::ledger::Ledger;

/// What became of a network's components: the names of those that left, those that have started, and the room
/// that is left.
#[derive(Drop)]
pub struct Changed {
    pub gone: Seq<Name>,
    pub fresh: Seq<WiredKid>,
    pub room: u64,
}

/// The components of a network that lies in a grove become those of a structure with these entries. Those that
/// do not survive leave with all beneath them, which gives their parts back to the room; then those that are
/// fresh start and are put below it. All of it is told. The schedule serves who stays as it did, and those
/// that are fresh. Counts at most 2 looks for each component and each entry, 6 for each part that leaves and 4
/// for each that comes; and with 4 for each pair that the schedule gets, 16 for all work that it tells and 4 for each
/// entry. A fault ends it, or `Memory` where there is none: then the grove may have some of it.
pub fn change<L: Ledger>(
    alloc: Global,
    program: &Program,
    grove: &mut Grove<Spot>,
    queue: &mut Queue,
    wiring: &Wiring,
    entries: Seq<Entry>,
    path: &Path,
    time: u64,
    room: u64,
    events: &mut Seq<Event>,
    looks: &mut Steps<L>,
) -> Result<Changed, TurnEnd>
    requires moment { IsMoment time }
    requires entries { AllByRecursion (FitsEntry program.now) entries }
    requires order { IsInOrder entries }
    requires ordinary { AllByRecursion (λ entry. is_same_name EXEC entry.name ≡ false) entries }
    requires tree { IsTree grove.old }
    requires stands { NetStands grove.old (out-Wiring wiring.now).me (out-Wiring wiring.now).boss path.now (out-Wiring wiring.now).kids }
    requires named { AreNames (names (entries_of grove.old (out-Wiring wiring.now).kids)) }
    requires fits { AllByRecursion (FitsKid program.now) (shown grove.old (out-Wiring wiring.now).kids) }
    requires births { grove.old.next_birth + room + parts_of_kids (shown grove.old (out-Wiring wiring.now).kids) < 2 ^ 64 }
    ensures told { Tells (change (system program.now) entries (shown grove.old (out-Wiring wiring.now).kids) path.now time room) events.old events.new (changed_to grove.new entries (shown grove.old (out-Wiring wiring.now).kids) result) }
    ensures stands { IfOk result (λ changed. NetStands grove.new (out-Wiring wiring.now).me (out-Wiring wiring.now).boss path.now (staying changed.gone (out-Wiring wiring.now).kids ++ changed.fresh)) }
    ensures stay { IfOk result (λ changed. shown grove.new (staying changed.gone (out-Wiring wiring.now).kids) ≡ kept entries (shown grove.old (out-Wiring wiring.now).kids)) }
    ensures gone { IfOk result (λ changed. AreInOrder changed.gone) }
    ensures are { IfOk result (λ changed. map entry_of (shown grove.new changed.fresh) ≡ map started_as (fresh (entries_of grove.old (out-Wiring wiring.now).kids) entries)) }
    ensures fits { IfOk result (λ changed. AllByRecursion (FitsKid program.now) (shown grove.new changed.fresh)) }
    ensures changes { OnOk result (ChangesBeneath path.now.names grove.old grove.new) }
    ensures itself { OnOk result (value_of grove.new (out-Wiring wiring.now).me ≡ value_of grove.old (out-Wiring wiring.now).me) }
    ensures executive { OnOk result (value_of grove.new (out-Wiring wiring.now).boss ≡ value_of grove.old (out-Wiring wiring.now).boss) }
    ensures born { IfOk result (λ changed. grove.new.next_birth + changed.room ≡ grove.old.next_birth + room + parts_of_kids (gone entries (shown grove.old (out-Wiring wiring.now).kids))) }
    ensures room { IfOk result (λ changed. parts_of_kids (shown grove.new changed.fresh) + changed.room ≡ room + parts_of_kids (gone entries (shown grove.old (out-Wiring wiring.now).kids))) }
    ensures young { IfOk result (λ changed. (birth : ℕ) → HasBirth birth (places_of path.now changed.fresh) → grove.old.next_birth ≤ birth) }
    ensures waits { (waiting : List Handle) → IsScheduledBut grove.old waiting queue.old.pairs → OnOk result (IsScheduledBut grove.new waiting queue.new.pairs) }
    ensures tree { OnOk result (IsTree grove.new) }
    ensures work { OnOk result (looks.new + 4 * length queue.new.pairs + 16 * work events.old ≤ looks.old + 4 * length queue.old.pairs + 16 * work events.new + 4 * length entries) }
    ensures ticks { IfOk result (λ changed. looks.new ≤ looks.old + 2 * length (out-Wiring wiring.now).kids + 2 * length entries + 6 * parts_of_kids (gone entries (shown grove.old (out-Wiring wiring.now).kids)) + 4 * parts_of_kids (shown grove.new changed.fresh)) }
{
    changes_start_the_fresh();
    steps_tell_their_work();
    let tests = survivors(alloc, grove, wiring, &entries, looks)?;
    let gone = names_lost(alloc, wiring, &tests)?;
    let needed = fresh_entries(alloc, grove, wiring, entries, looks)?;
    let more = drop_others(
        alloc,
        grove,
        wiring,
        tests.as_slice(),
        path,
        room,
        events,
        looks,
    )?;
    let (fresh, rest) = start_fresh(
        alloc, program, grove, queue, wiring.me, needed, path, time, more, events, looks,
    )?;
    Ok(Changed {
        gone,
        fresh,
        room: rest,
    })
}

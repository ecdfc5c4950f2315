//! One turn.

ghost use Rattle.std.specs.Prelude.{◌≡◌, ◌+◌, ◌-◌, ◌*◌, ◌<◌, ◌≤◌, ◌^◌, ℕ, length, map, IfSome, List, OnOk};
ghost use Rattle.std.specs.Option.{option_map};
ghost use Rattle.std.specs.FinMap as finmap;
ghost use Rattle.dsde_syntax.specs.declared.decl.Model.{Model as AModel};
ghost use Rattle.dsde_values.specs.Path.{root};
ghost use Rattle.dsde_values.specs.When.{IsMoment};
ghost use Rattle.dsde_values.specs.declared.arrival.Item.{Item as AnItem};
ghost use Rattle.dsde_core_outputs.specs.given.system.Program.{system};
ghost use Rattle.dsde_sim_tree.specs.Told.{Tells};
ghost use Rattle.dsde_sim_tree.specs.Tree.{model_of, parts};
ghost use Rattle.dsde_sim_tree.specs.Turn.{turn};
ghost use Rattle.dsde_sim_tree.specs.declared.step.TheConstants.{MOST_PARTS};
ghost use Rattle.dsde_core_moving.specs.given.sim_movers.Turns.{free_phase};
ghost use Rattle.dsde_core_moving.specs.given.sim_movers.Work.{entries_each, turn_entries, work};
ghost use Rattle.dsde_core_outputs.specs.Rows.{HasRows};
ghost use Rattle.dsde_core_outputs.specs.given.sim_working.Working.{FitsItems};
ghost use Rattle.dsde_queue.specs.Queue.{first_of, time_of};
ghost use Rattle.dsde_core_moving.specs.given.core_flat.Scheduled.{IsScheduled, IsScheduledBut};
ghost use Rattle.dsde_core_moving.specs.given.core_flat.Stands.{IsShallow};
ghost use Rattle.dsde_core_moving.specs.given.core_moves.Flat.{delivery_of, tree_of, Stands};
ghost use Rattle.dsde_core_moving.specs.given.core_moves.Movers.{handle_of, list_of, ports_of, with_queue, AreMovers};
ghost use Rattle.dsde_core_moving.specs.given.core_moves.Resting.{Rests};
ghost use Rattle.dsde_core.specs.Turned.{with_turn};

use crate::telling::tell_sent;
use dsde_base::Steps;
use dsde_core_moving::given::core_flat::{compact_schedule, due_time};
use dsde_core_moving::given::core_moves::{Flat, Phase};
use dsde_core_moving::given::program::Program;
use dsde_core_moving::given::sim_movers::{room_is_kept, turns_move_one_by_one};
use dsde_core_moving::movers_move;
use dsde_core_outputs::turn_movers;
use dsde_sim_tree::{Event, MOST_PARTS, TurnEnd};
use dsde_values::{Item, Seq};
use std::alloc::Global;
use std::sync::ledger::Ledger;

/// Keeps no pair that is not current, where there are more than twice as many pairs as parts are alive, and 64.
fn thin(flat: &mut Flat)
    requires scheduled { IsScheduled flat.old.grove flat.old.queue.pairs }
    requires within { finmap.len flat.old.grove.parts ≤ MOST_PARTS }
    ensures same { flat.new ≡ with_queue flat.old flat.new.queue }
    ensures scheduled { IsScheduled flat.new.grove flat.new.queue.pairs }
    ensures few { length flat.new.queue.pairs ≤ 2 * finmap.len flat.new.grove.parts + 64 }
    ensures shorter { length flat.new.queue.pairs ≤ length flat.old.queue.pairs }
{
    if flat.queue.len() as u64 <= 2 * flat.grove.live() + 64 {
        return;
    }
    compact_schedule(&flat.grove, &mut flat.queue);
}

/// Takes pairs that are no longer current out of a schedule: those before the next event, and all where there are
/// too many. Each pair that leaves pays for its looks with 4, and 2 more are counted.
fn settle<L: Ledger>(flat: &mut Flat, looks: &mut Steps<L>)
    requires stands { (model : AModel) × Stands model flat.old }
    requires within { parts (tree_of flat.old) ≤ MOST_PARTS }
    requires scheduled { IsScheduled flat.old.grove flat.old.queue.pairs }
    ensures tree { tree_of flat.new ≡ tree_of flat.old }
    ensures rests { (model : AModel) → Stands model flat.old → Rests model flat.new }
    ensures births { flat.new.grove.next_birth ≡ flat.old.grove.next_birth }
    ensures paid { looks.new + 4 * length flat.new.queue.pairs ≤ looks.old + 2 + 4 * length flat.old.queue.pairs }
{
    thin(flat);
    due_time(&flat.grove, &mut flat.queue, looks);
}

/// Tells what the whole model sends, and moves those who move in the turn, one after another in path order.
fn move_phase<L: Ledger, M: Ledger>(
    alloc: Global,
    program: &Program,
    flat: &mut Flat,
    phase: Phase,
    time: u64,
    events: &mut Seq<Event>,
    looks: &mut Steps<L>,
    changes: &mut Steps<M>,
) -> Result<(), TurnEnd>
    requires moment { IsMoment time }
    requires stands { Stands program.now flat.old }
    requires within { parts (tree_of flat.old) ≤ MOST_PARTS }
    requires movers { (items : List AnItem) × AreMovers program.now flat.old time items (list_of phase.movers) }
    requires waits { IsScheduledBut flat.old.grove (map handle_of (list_of phase.movers)) flat.old.queue.pairs }
    requires few { length (ports_of phase.sent) < 2 ^ 32 }
    requires births { flat.old.grove.next_birth + 2 ^ 34 < 2 ^ 64 }
    ensures told { Tells (free_phase (system program.now) (tree_of flat.old) time (map delivery_of (list_of phase.movers)) (ports_of phase.sent)) events.old events.new (with_turn flat.new result) }
    ensures stands { OnOk result (Stands program.now flat.new) }
    ensures within { OnOk result (parts (tree_of flat.new) ≤ MOST_PARTS) }
    ensures scheduled { OnOk result (IsScheduled flat.new.grove flat.new.queue.pairs) }
    ensures births { OnOk result (flat.new.grove.next_birth ≤ flat.old.grove.next_birth + 2 ^ 33) }
    ensures many { OnOk result (length (list_of phase.movers) + work events.old ≤ work events.new) }
    ensures paid { OnOk result (looks.new + 4 * length flat.new.queue.pairs + 16 * work events.old ≤ looks.old + 4 * length flat.old.queue.pairs + 16 * work events.new
        + 4 * entries_each (system program.now) root time (map delivery_of (list_of phase.movers)) (tree_of flat.old) (MOST_PARTS - parts (tree_of flat.old))) }
{
    room_is_kept();
    let Phase { sent, movers } = phase;
    tell_sent(alloc, sent, events)?;
    let room = MOST_PARTS - flat.grove.live();
    let _room = movers_move(
        alloc, program, flat, movers, time, room, events, looks, changes,
    )?;
    Ok(())
}

/// Takes one turn with these items of input, where the tree lies, and tells it: what is due sends, values go along
/// the rows, and whoever is due or receives something moves, in path order. It is at the time of the schedule's first
/// pair, or before it. A fault ends it, or `Memory` where there is none: then nothing stands. At most 2^33 parts are
/// born, and 2^34 births are left before it. Looks and changes of rows are counted: with 4 for each pair that the
/// schedule gets, and less 4 for each that leaves it, at most 128 looks for all work that it tells, for each entry
/// of a structure that is taken, for each row from the ports that send, and for the turn.
pub fn turn<L: Ledger, M: Ledger>(
    alloc: Global,
    program: &Program,
    flat: &mut Flat,
    number: u64,
    time: u64,
    items: &[Item],
    events: &mut Seq<Event>,
    looks: &mut Steps<L>,
    changes: &mut Steps<M>,
) -> Result<(), TurnEnd>
    requires moment { IsMoment time }
    requires rests { Rests program.now flat.old }
    requires least { IfSome (option_map time_of (first_of flat.old.queue.pairs)) (λ first. time ≤ first) }
    requires shallow { IsShallow flat.old.grove }
    requires items { FitsItems program.now (model_of (tree_of flat.old)).0 items.now }
    requires births { flat.old.grove.next_birth + 2 ^ 34 < 2 ^ 64 }
    ensures told { Tells (turn (system program.now) (tree_of flat.old) number time items.now) events.old events.new (with_turn flat.new result) }
    ensures rests { OnOk result (Rests program.now flat.new) }
    ensures births { OnOk result (flat.new.grove.next_birth ≤ flat.old.grove.next_birth + 2 ^ 33) }
    ensures paid { OnOk result ((rows : ℕ) × HasRows program.now flat.old time items.now rows × (looks.new + 4 * length flat.new.queue.pairs + 128 * work events.old ≤ looks.old + 4 * length flat.old.queue.pairs
        + 128 * (work events.new + turn_entries (system program.now) (tree_of flat.old) time items.now + rows + 1))) }
{
    turns_move_one_by_one();
    let _ = flat.queue.len();
    events.push(Event::Turn { number, time })?;
    let phase = turn_movers(alloc, program, flat, time, items, looks)?;
    move_phase(alloc, program, flat, phase, time, events, looks, changes)?;
    settle(flat, looks);
    Ok(())
}

//! All who move.

ghost use Rattle.std.specs.Prelude.{◌≡◌, ◌+◌, ◌<◌, ◌≤◌, ◌^◌, ◌*◌, List, length, map, option_to_list, OnOk};
ghost use Rattle.dsde_values.specs.Path.{root};
ghost use Rattle.dsde_values.specs.When.{IsMoment};
ghost use Rattle.dsde_values.specs.declared.arrival.Item.{Item};
ghost use Rattle.dsde_sim_starting.specs.given.system.Program.{system};
ghost use Rattle.dsde_sim_tree.specs.Told.{Tells};
ghost use Rattle.dsde_sim_tree.specs.Tree.{parts};
ghost use Rattle.dsde_sim_tree.specs.declared.step.TheConstants.{MOST_PARTS};
ghost use Rattle.dsde_sim_movers.specs.Movers.{move_each};
ghost use Rattle.dsde_sim_movers.specs.Work.{entries_each, work};
ghost use Rattle.dsde_core_moves.specs.given.core_flat.Scheduled.{IsScheduled, IsScheduledBut};
ghost use Rattle.dsde_core_moves.specs.Flat.{delivery_of, tree_of, Stands};
ghost use Rattle.dsde_core_moving.specs.Restructured.{with_room};
ghost use Rattle.dsde_core_moves.specs.Movers.{handle_of, list_of, AreMovers};

use crate::one::mover_steps;
use dsde_base::Steps;
use dsde_core_moves::{Flat, Mover, Movers};
use dsde_sim_movers::{executives_are_few, movers_wait, path_order_is_lawful, room_is_kept};
use dsde_sim_starting::given::program::Program;
use dsde_sim_tree::{Event, TurnEnd};
use dsde_values::Seq;
use std::alloc::Global;
use std::sync::ledger::Ledger;

/// Those who move in a turn take their steps one after another, where they lie, with this room for parts. Gives
/// the room that is left; who is due later has a pair in the schedule again. A fault ends it, or `Memory` where
/// there is none: then nothing stands.
pub fn movers_move<L: Ledger, M: Ledger>(
    alloc: Global,
    program: &Program,
    flat: &mut Flat,
    movers: Movers,
    time: u64,
    room: u64,
    events: &mut Seq<Event>,
    looks: &mut Steps<L>,
    changes: &mut Steps<M>,
) -> Result<u64, TurnEnd>
    requires moment { IsMoment time }
    requires stands { Stands program.now flat.old }
    requires movers { (items : List Item) × AreMovers program.now flat.old time items (list_of movers) }
    requires waits { IsScheduledBut flat.old.grove (map handle_of (list_of movers)) flat.old.queue.pairs }
    requires room { parts (tree_of flat.old) + room ≤ MOST_PARTS }
    requires births { flat.old.grove.next_birth + 2 ^ 34 < 2 ^ 64 }
    ensures told { Tells (move_each (system program.now) root time (map delivery_of (list_of movers)) (tree_of flat.old) room) events.old events.new (with_room flat.new result) }
    ensures stands { OnOk result (Stands program.now flat.new) }
    ensures scheduled { OnOk result (IsScheduled flat.new.grove flat.new.queue.pairs) }
    ensures births { OnOk result (flat.new.grove.next_birth ≤ flat.old.grove.next_birth + 2 ^ 33) }
    ensures many { OnOk result (length (list_of movers) + work events.old ≤ work events.new) }
    ensures work { OnOk result (looks.new + 4 * length flat.new.queue.pairs + 16 * work events.old ≤ looks.old + 4 * length flat.old.queue.pairs + 16 * work events.new
        + 4 * entries_each (system program.now) root time (map delivery_of (list_of movers)) (tree_of flat.old) room) }
{
    match movers {
        Movers::One(mover) => one_moves(
            alloc, program, flat, mover, time, room, events, looks, changes,
        ),
        Movers::Many(movers) => all_move(
            alloc, program, flat, movers, time, room, events, looks, changes,
        ),
    }
}

/// The same of one, or of nobody.
fn one_moves<L: Ledger, M: Ledger>(
    alloc: Global,
    program: &Program,
    flat: &mut Flat,
    mover: Option<Mover>,
    time: u64,
    room: u64,
    events: &mut Seq<Event>,
    looks: &mut Steps<L>,
    changes: &mut Steps<M>,
) -> Result<u64, TurnEnd>
    requires moment { IsMoment time }
    requires stands { Stands program.now flat.old }
    requires movers { (items : List Item) × AreMovers program.now flat.old time items (option_to_list mover) }
    requires waits { IsScheduledBut flat.old.grove (map handle_of (option_to_list mover)) flat.old.queue.pairs }
    requires room { parts (tree_of flat.old) + room ≤ MOST_PARTS }
    requires births { flat.old.grove.next_birth + 2 ^ 34 < 2 ^ 64 }
    ensures told { Tells (move_each (system program.now) root time (map delivery_of (option_to_list mover)) (tree_of flat.old) room) events.old events.new (with_room flat.new result) }
    ensures stands { OnOk result (Stands program.now flat.new) }
    ensures scheduled { OnOk result (IsScheduled flat.new.grove flat.new.queue.pairs) }
    ensures births { OnOk result (flat.new.grove.next_birth ≤ flat.old.grove.next_birth + 2 ^ 33) }
    ensures many { OnOk result (length (option_to_list mover) + work events.old ≤ work events.new) }
    ensures work { OnOk result (looks.new + 4 * length flat.new.queue.pairs + 16 * work events.old ≤ looks.old + 4 * length flat.old.queue.pairs + 16 * work events.new
        + 4 * entries_each (system program.now) root time (map delivery_of (option_to_list mover)) (tree_of flat.old) room) }
{
    path_order_is_lawful();
    room_is_kept();
    executives_are_few();
    movers_wait();
    let Some(mover) = mover else {
        return Ok(room);
    };
    let rest = mover_steps(
        alloc, program, flat, mover, time, room, events, looks, changes,
    )?;
    Ok(rest)
}

/// The same of a list.
fn all_move<L: Ledger, M: Ledger>(
    alloc: Global,
    program: &Program,
    flat: &mut Flat,
    movers: Seq<Mover>,
    time: u64,
    room: u64,
    events: &mut Seq<Event>,
    looks: &mut Steps<L>,
    changes: &mut Steps<M>,
) -> Result<u64, TurnEnd>
    requires moment { IsMoment time }
    requires stands { Stands program.now flat.old }
    requires movers { (items : List Item) × AreMovers program.now flat.old time items movers }
    requires waits { IsScheduledBut flat.old.grove (map handle_of movers) flat.old.queue.pairs }
    requires room { parts (tree_of flat.old) + room ≤ MOST_PARTS }
    requires births { flat.old.grove.next_birth + 2 ^ 34 < 2 ^ 64 }
    ensures told { Tells (move_each (system program.now) root time (map delivery_of movers) (tree_of flat.old) room) events.old events.new (with_room flat.new result) }
    ensures stands { OnOk result (Stands program.now flat.new) }
    ensures scheduled { OnOk result (IsScheduled flat.new.grove flat.new.queue.pairs) }
    ensures births { OnOk result (flat.new.grove.next_birth ≤ flat.old.grove.next_birth + 2 ^ 33) }
    ensures many { OnOk result (length movers + work events.old ≤ work events.new) }
    ensures work { OnOk result (looks.new + 4 * length flat.new.queue.pairs + 16 * work events.old ≤ looks.old + 4 * length flat.old.queue.pairs + 16 * work events.new
        + 4 * entries_each (system program.now) root time (map delivery_of movers) (tree_of flat.old) room) }
{
    path_order_is_lawful();
    room_is_kept();
    executives_are_few();
    let mut room = room;
    for mover in movers.into_vec() {
        movers_wait();
        room = mover_steps(
            alloc, program, flat, mover, time, room, events, looks, changes,
        )?;
    }
    Ok(room)
}

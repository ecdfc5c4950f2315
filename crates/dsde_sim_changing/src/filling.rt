//! The components of a network become those of a structure.

ghost use Rattle.std.specs.Prelude.{◌≡◌, ◌+◌, ◌<◌, ◌≤◌, ◌^◌, [], ◌++◌, true, map, is_some, IfOk, IfSome};
ghost use Rattle.std.specs.Option.{option_to_list};
ghost use Rattle.std.specs.List.{AllByRecursion};
ghost use Rattle.dsde_values.specs.When.{IsMoment};
ghost use Rattle.dsde_sim_tree.specs.Told.{Tells};
ghost use Rattle.dsde_sim_tree.specs.given.structure.Survival.{AreInOrder, IsInOrder, role, roles};
ghost use Rattle.dsde_sim_starting.specs.given.system.Program.{system};
ghost use Rattle.dsde_sim_starting.specs.given.system.Plans.{FitsEntry};
ghost use Rattle.dsde_sim_starting.specs.Fitting.{FitsKid};
ghost use Rattle.dsde_sim_tree.specs.Tree.{entry_of, parts_of_kid, parts_of_kids, name_of};
ghost use Rattle.dsde_sim_tree.specs.Start.{start};
ghost use Rattle.dsde_sim_tree.specs.Move.{survives, refilled, left_behind, change};
ghost use Rattle.dsde_sim_changing.specs.Survivors.{is_next, filled, survivor_parts};

use crate::splitting::split;
use dsde_sim_starting::given::program::Program;
use dsde_sim_starting::start_kid;
use dsde_sim_tree::given::structure::{Entry, survivors_keep_their_roles};
use dsde_sim_tree::{DEEPEST, Event, Kid, TurnEnd};
use dsde_values::{Name, Path, Seq};
use std::alloc::Global;
use std::collections::VecDeque;

/// How many names may stand behind a path.
fn left_behind(path: &Path) -> u32
    ensures { result ≡ left_behind path.now }
{
    (DEEPEST as usize).saturating_sub(path.names.len()) as u32
}

/// Whether the first of these components has this name.
fn is_next(kids: &VecDeque<Kid>, name: &Name) -> bool
    ensures { result ≡ is_next name.now kids.now.items }
{
    match kids.front() {
        Some(kid) => kid.name == *name,
        None => false,
    }
}

/// Takes out the first of these components where it has this name.
fn take_next(kids: &mut VecDeque<Kid>, name: &Name) -> Option<Kid>
    ensures all { kids.old.items ≡ option_to_list result ++ kids.new.items }
    ensures named { is_some result ≡ is_next name.now kids.old.items }
{
    if is_next(kids, name) {
        kids.pop_front()
    } else {
        None
    }
}

/// An entry gets its survivor, which keeps its own arguments, or else a component that starts.
fn filled(
    alloc: Global,
    program: &Program,
    left: u32,
    entry: Entry,
    survivor: Option<Kid>,
    path: &Path,
    time: u64,
    room: u64,
    events: &mut Seq<Event>,
) -> Result<(Kid, u64), TurnEnd>
    requires moment { IsMoment time }
    requires entry { FitsEntry program.now entry }
    requires fits { IfSome survivor (FitsKid program.now) }
    requires is { IfSome survivor (λ kid. role (entry_of kid) ≡ role entry) }
    ensures told { Tells (filled (start (system program.now) left) entry survivor path.now time room) events.old events.new result }
    ensures room { IfOk result (λ one. parts_of_kid one.0 + one.1 ≡ survivor_parts survivor + room) }
    ensures fits { IfOk result (λ one. FitsKid program.now one.0) }
    ensures is { IfOk result (λ one. role (entry_of one.0) ≡ role entry) }
{
    match survivor {
        Some(kid) => Ok((kid, room)),
        None => start_kid(alloc, program, left, entry, path, time, room, events),
    }
}

/// The entries get their components, in the order of their names: survivors, and others that start.
pub fn refilled(
    alloc: Global,
    program: &Program,
    entries: Seq<Entry>,
    kept: Seq<Kid>,
    path: &Path,
    time: u64,
    room: u64,
    events: &mut Seq<Event>,
) -> Result<(Seq<Kid>, u64), TurnEnd>
    requires moment { IsMoment time }
    requires entries { AllByRecursion (FitsEntry program.now) entries }
    requires kept { AllByRecursion (FitsKid program.now) kept }
    requires order { IsInOrder entries }
    requires names { AreInOrder (map name_of kept) }
    requires survive { AllByRecursion (λ kid. survives entries kid ≡ true) kept }
    ensures told { Tells (refilled (start (system program.now) (left_behind path.now)) entries kept path.now time room []) events.old events.new result }
    ensures room { IfOk result (λ filled. parts_of_kids filled.0 + filled.1 ≤ parts_of_kids kept + room) }
    ensures fits { IfOk result (λ filled. AllByRecursion (FitsKid program.now) filled.0) }
    ensures are { IfOk result (λ filled. roles (map entry_of filled.0) ≡ roles entries) }
{
    survivors_keep_their_roles();
    let left = left_behind(path);
    let mut survivors = VecDeque::from(kept.into_vec());
    let mut done = Seq::new(alloc);
    let mut room = room;
    for entry in entries.into_vec() {
        let survivor = take_next(&mut survivors, &entry.name);
        let (kid, rest) = filled(
            alloc, program, left, entry, survivor, path, time, room, events,
        )?;
        room = rest;
        done.push(kid)?;
    }
    Ok((done, room))
}

/// The components of a network become those of a structure with these entries.
pub fn change(
    alloc: Global,
    program: &Program,
    entries: Seq<Entry>,
    kids: Seq<Kid>,
    path: &Path,
    time: u64,
    room: u64,
    events: &mut Seq<Event>,
) -> Result<(Seq<Kid>, u64), TurnEnd>
    requires moment { IsMoment time }
    requires entries { AllByRecursion (FitsEntry program.now) entries }
    requires kids { AllByRecursion (FitsKid program.now) kids }
    requires order { IsInOrder entries }
    requires names { IsInOrder (map entry_of kids) }
    requires few { parts_of_kids kids + room < 2 ^ 64 }
    ensures told { Tells (change (system program.now) entries kids path.now time room) events.old events.new result }
    ensures room { IfOk result (λ changed. parts_of_kids changed.0 + changed.1 ≤ parts_of_kids kids + room) }
    ensures fits { IfOk result (λ changed. AllByRecursion (FitsKid program.now) changed.0) }
    ensures are { IfOk result (λ changed. roles (map entry_of changed.0) ≡ roles entries) }
{
    let (kept, room) = split(alloc, entries.as_slice(), kids, path, room, events)?;
    refilled(alloc, program, entries, kept, path, time, room, events)
}

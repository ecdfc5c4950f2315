//! Moves of components and of executives.

ghost use Rattle.std.specs.Prelude.{◌≡◌, ◌<◌, ◌^◌, ◌++◌, ◌∷◌, [], length, IfOk, OnOk, OnErr};
ghost use Rattle.dsde_values.specs.When.{IsMoment};
ghost use Rattle.dsde_sim_tree.specs.given.formalism.Leaf.{has_come, kind_of, move_leaf};
ghost use Rattle.dsde_sim_tree.specs.declared.event.Event.TheVariants.{Move};
ghost use Rattle.dsde_sim_tree.specs.Told.{at, to_boss, Comes, Tells};
ghost use Rattle.dsde_sim_changing.specs.given.system.Program.{system};
ghost use Rattle.dsde_sim_changing.specs.given.system.Fitting.{FitsInputs, FitsLeaf};
ghost use Rattle.dsde_sim_tree.specs.Move.{take_move, move_leaf_at};
ghost use Rattle.dsde_sim_changing.specs.given.sim_starting.Fitting.{FitsAtomic, FitsGot};

use dsde_language::ModelId;
use dsde_sim_changing::given::atomic::leaf_moved;
use dsde_sim_changing::given::program::Program;
use dsde_sim_changing::given::sim_starting::is_due;
use dsde_sim_changing::given::sim_telling::{at, boss_of, copy_path, tell_gets};
use dsde_sim_tree::given::formalism::{Inputs, Leaf, MoveKind};
use dsde_sim_tree::{Event, TurnEnd};
use dsde_values::{Memory, Path, Seq, Values, copy_values};
use std::alloc::Global;

/// Whether some value came.
fn has_come(got: &[Values]) -> bool
    ensures { result ≡ has_come got.now }
{
    got.iter().any(|values| values.len() > 0)
}

/// Which transition a component or an executive takes at this time: none where it is not due and
/// nothing came.
pub fn kind_of(leaf: &Leaf, time: u64, got: &[Values]) -> Option<MoveKind>
    ensures { result ≡ kind_of leaf.now time got.now }
{
    match (is_due(leaf, time), has_come(got)) {
        (true, true) => Some(MoveKind::Confluent),
        (true, false) => Some(MoveKind::Internal),
        (false, true) => Some(MoveKind::External),
        (false, false) => None,
    }
}

/// A component or an executive after its move.
fn moved(
    alloc: Global,
    program: &Program,
    leaf: Leaf,
    kind: MoveKind,
    path: &Path,
    time: u64,
    got: Seq<Values>,
) -> Result<Leaf, TurnEnd>
    requires moment { IsMoment time }
    requires leaf { FitsLeaf program.now leaf }
    requires got { FitsInputs program.now leaf.model.0 got }
    ensures comes { Comes (at path.now (move_leaf (system program.now) leaf kind time got)) result }
    ensures fits { IfOk result (FitsLeaf program.now) }
    ensures model { IfOk result (λ moved. moved.model ≡ leaf.model) }
    ensures args { IfOk result (λ moved. moved.args ≡ leaf.args) }
    ensures boss { IfOk result (λ moved. moved.boss ≡ leaf.boss) }
{
    let got = Inputs { ports: got };
    at(
        alloc,
        path,
        leaf_moved(alloc, program, leaf, kind, time, got),
    )
}

/// Tells that the component or the executive at a path, which the event takes, has moved.
fn tell_move(
    alloc: Global,
    path: Path,
    model: ModelId,
    kind: MoveKind,
    leaf: &Leaf,
    events: &mut Seq<Event>,
) -> Result<(), Memory>
    ensures ok { OnOk result (events.new ≡ events.old ++ Move path model kind leaf.now.state leaf.now.next ∷ []) }
    ensures err { OnErr result (events.new ≡ events.old) }
{
    events.push(Event::Move {
        path,
        model,
        kind,
        state: copy_values(alloc, leaf.state.as_slice())?,
        next: leaf.next,
    })
}

/// Tells what a component or an executive receives, takes its transition, and tells its move, in an
/// event that takes its path.
pub fn take_move(
    alloc: Global,
    program: &Program,
    leaf: Leaf,
    kind: MoveKind,
    path: Path,
    time: u64,
    got: Seq<Values>,
    events: &mut Seq<Event>,
) -> Result<Leaf, TurnEnd>
    requires moment { IsMoment time }
    requires leaf { FitsLeaf program.now leaf }
    requires got { FitsInputs program.now leaf.model.0 got }
    requires few { length got < 2 ^ 32 }
    ensures told { Tells (take_move (system program.now) leaf kind path time got) events.old events.new result }
    ensures fits { IfOk result (FitsLeaf program.now) }
    ensures model { IfOk result (λ moved. moved.model ≡ leaf.model) }
    ensures args { IfOk result (λ moved. moved.args ≡ leaf.args) }
    ensures boss { IfOk result (λ moved. moved.boss ≡ leaf.boss) }
{
    let model = leaf.model;
    tell_gets(alloc, &path, model, got.as_slice(), events)?;
    let moved = moved(alloc, program, leaf, kind, &path, time, got)?;
    tell_move(alloc, path, model, kind, &moved, events)?;
    Ok(moved)
}

/// An atomic component that is not due and received nothing stays as it is.
pub(crate) fn move_leaf_at(
    alloc: Global,
    program: &Program,
    leaf: Leaf,
    path: &Path,
    time: u64,
    got: Seq<Values>,
    events: &mut Seq<Event>,
) -> Result<Leaf, TurnEnd>
    requires moment { IsMoment time }
    requires leaf { FitsAtomic program.now leaf }
    requires got { FitsGot program.now leaf.model.0 got }
    ensures told { Tells (move_leaf_at (system program.now) leaf path.now time got) events.old events.new result }
    ensures fits { IfOk result (FitsAtomic program.now) }
    ensures model { IfOk result (λ moved. moved.model ≡ leaf.model) }
    ensures args { IfOk result (λ moved. moved.args ≡ leaf.args) }
{
    match kind_of(&leaf, time, got.as_slice()) {
        Some(kind) => {
            let path = copy_path(alloc, path)?;
            take_move(alloc, program, leaf, kind, path, time, got, events)
        }
        None => Ok(leaf),
    }
}

/// The executive of the network at a path takes this transition.
pub(crate) fn boss_move(
    alloc: Global,
    program: &Program,
    boss: Leaf,
    kind: MoveKind,
    path: &Path,
    time: u64,
    got: Seq<Values>,
    events: &mut Seq<Event>,
) -> Result<Leaf, TurnEnd>
    requires moment { IsMoment time }
    requires boss { FitsLeaf program.now boss }
    requires got { FitsInputs program.now boss.model.0 got }
    requires few { length got < 2 ^ 32 }
    ensures told { Tells (take_move (system program.now) boss kind (to_boss path.now) time got) events.old events.new result }
    ensures fits { IfOk result (FitsLeaf program.now) }
    ensures model { IfOk result (λ moved. moved.model ≡ boss.model) }
    ensures args { IfOk result (λ moved. moved.args ≡ boss.args) }
    ensures boss { IfOk result (λ moved. moved.boss ≡ boss.boss) }
{
    let path = boss_of(alloc, path)?;
    take_move(alloc, program, boss, kind, path, time, got, events)
}

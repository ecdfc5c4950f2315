//! The engine: the start of a run, and its turns.

ghost use Rattle.std.specs.Prelude.{◌≡◌, ◌+◌, ◌<◌, ◌≤◌, ◌^◌, Some, Ok, Err, is_some, is_none, is_err, true, IfOk, IfErr, IfSome, OnOk, drop, length};
ghost use Rattle.std.specs.Option.{option_copied};
ghost use Rattle.dsde_values.specs.When.{IsMoment};
ghost use Rattle.dsde_language.specs.declared.ids.ModelId.{ModelId};
ghost use Rattle.dsde_language.specs.DeclaredModels.{top_number};
ghost use Rattle.dsde_sim_tree.specs.Told.{Tells};
ghost use Rattle.dsde_core_outputs.specs.given.system.Program.{system};
ghost use Rattle.dsde_sim_tree.specs.Engine.{next_of};
ghost use Rattle.dsde_sim_tree.specs.Turn.{start, advance, turn_time};
ghost use Rattle.dsde_core_moving.specs.given.sim_movers.Stands.{StandsTree};
ghost use Rattle.dsde_core_moving.specs.given.sim_movers.Delivered.{IsTurnDelivered};
ghost use Rattle.dsde_core_outputs.specs.given.sim_working.Working.{HeadComes, IsRoot, Stands, StandsAt, StandsIf, working};
ghost use Rattle.dsde_core_moving.specs.given.sim_movers.Work.{work};
ghost use Rattle.dsde_core.specs.Paid.{IsPaid};
ghost use Rattle.dsde_core.specs.Standing.{HasFewPairs};

use crate::{flat_of, tree_of, turn};
use dsde_base::Steps;
use dsde_core_moving::given::core_flat::paths_are_short;
use dsde_core_moving::given::core_moves::Flat;
use dsde_core_moving::given::program::Program;
use dsde_core_moving::given::sim_movers::{advances_are_delivered, trees_stand};
use dsde_core_outputs::given::sim_working::{
    chosen, is_taken, items_at, programs_lead_on, started, turn_time,
};
use dsde_sim_tree::{Event, Sim, Step, TurnEnd};
use dsde_values::{Arrival, Memory, Seq, When};
use std::alloc::Global;
use std::marker::Model;
use std::sync::ledger::Ledger;

/// A program at work, whose tree lies in a grove.
#[derive(Drop)]
pub struct Core<'p> {
    alloc: Global,
    program: &'p Program<'p>,
    flat: Flat,
    turn: u64,
    time: u64,
    taken: u64,
    // A turn did not come to its end: then nothing stands.
    spent: bool,
}

impl<'p> Model for Core<'p> {
    ghost use Rattle.std.specs.Prelude.{◌≤◌, length};
    ghost use Rattle.dsde_core_outputs.specs.given.sim_working.Working.{StandsAt};
    ghost use Rattle.dsde_core.specs.Standing.{Standing, RestsIf, tree_if};
    ghost use Rattle.dsde_syntax.specs.contracts.decl.Model as model;
    ghost use Rattle.dsde_sim_tree.specs.contracts.sim.Sim as sim;
    ghost use Rattle.std.specs.Coded.{codes};

    ghost Value = { Standing };

    ghost coded = { Prim.hlevel (codes, model.the_row.coded, sim.the_row.coded) };

    ghost view = { λ core. record {
      program = core.program.now;
      engine = record { tree = tree_if core.spent core.flat; turn = core.turn; time = core.time; taken = core.taken };
      born = core.flat.grove.next_birth;
      queued = length core.flat.queue.pairs;
    } };

    ghost invariant = { λ core. RestsIf core.spent core.program.now core.flat × (core.taken ≤ core.turn) × StandsAt core.program.now (record {
      tree = tree_if core.spent core.flat;
      turn = core.turn;
      time = core.time;
      taken = core.taken;
    }) };
}

impl<'p> Core<'p> {
    /// Starts the program at time 0, and tells it. After a fault the events before it were told,
    /// and without memory some of the events, from their front. Each part of its tree is born once, and
    /// its schedule has at most twice as many pairs as parts are alive, and 64.
    pub fn start(
        alloc: Global,
        program: &'p Program<'p>,
        events: &mut Seq<Event>,
    ) -> Result<Core<'p>, TurnEnd>
        ensures program { IfOk result (λ core. core.program ≡ program.now) }
        ensures ok { IfOk result (λ core. Tells (start (system program.now)) events.old events.new (Ok core.engine)) }
        ensures err { IfErr result (λ end. Tells (start (system program.now)) events.old events.new (Err end)) }
        ensures root { IfOk result (λ core. IsRoot (top_number program.now) core.engine) }
        ensures born { IfOk result (λ core. core.born ≤ 131072) }
        ensures few { IfOk result (λ core. HasFewPairs core) }
    {
        trees_stand();
        programs_lead_on();
        let args = chosen(alloc, program)?;
        let tree = started(alloc, program, args, events)?;
        let flat = flat_of(alloc, tree)?;
        Ok(Core {
            alloc,
            program,
            flat,
            turn: 0,
            time: 0,
            taken: 0,
            spent: false,
        })
    }

    /// The engine of a program with this tree, after so many turns, the last of them at this time, and
    /// so many records of the input taken: the tree is one of the program and stands at the time. Each
    /// part of the tree is born once, and the schedule has no more pairs than after a start. `Memory`
    /// where there is none.
    pub fn from_tree(
        alloc: Global,
        program: &'p Program<'p>,
        tree: Sim,
        turn: u64,
        time: u64,
        taken: u64,
    ) -> Result<Core<'p>, Memory>
        requires fits { Stands program.now tree }
        requires stands { StandsTree (system program.now) time tree }
        requires moment { IsMoment time }
        requires turn { turn < 2 ^ 63 }
        requires taken { taken ≤ turn }
        ensures engine { IfOk result (λ core. working core.program core.engine ≡ working program.now (record { tree = Some tree; turn = turn; time = time; taken = taken })) }
        ensures born { IfOk result (λ core. core.born ≤ 131072) }
        ensures few { IfOk result (λ core. HasFewPairs core) }
    {
        let flat = flat_of(alloc, tree)?;
        Ok(Core {
            alloc,
            program,
            flat,
            turn,
            time,
            taken,
            spent: false,
        })
    }

    /// A law: the tree is one of the program, with no more parts than may be alive, and stands at the
    /// time of the last turn.
    pub fn stands(&self)
        ensures fits { StandsIf self.now.program self.now.engine.tree }
        ensures stands { StandsAt self.now.program self.now.engine }
    {
        let _ = &self.flat;
    }

    /// The program at work.
    pub fn program(&self) -> &'p Program<'p>
        ensures { result.now ≡ self.now.program }
    {
        self.program
    }

    /// Takes one turn with this head of the input, and tells it: at the lesser of the time of the
    /// next event and of the head, which is taken where the turn is at its time. A head is not before
    /// the time of the last turn.
    ///
    /// After a fault the events before it were told, and without memory some of the events, from
    /// their front. After either the engine is spent. `Quiet` comes exactly where there is no head
    /// and nothing will ever be due, and changes nothing.
    ///
    /// What it tells of the turn reaches only parts of the tree before it and none that it added,
    /// and each component and each executive receives what the links of that tree carry to it.
    ///
    /// Fewer than 2^63 + 2^62 parts were born before, and at most 2^33 are born in it. Behind it the
    /// schedule has at most twice as many pairs as parts are alive, and 64. Looks at parts and changes of
    /// rows are counted. What the looks come to is paid for by what the turn does: 128 for each move, for
    /// each part that starts or leaves, for each entry of a structure that is taken, for each row from a
    /// port that sends, and for the turn, where a pair of the schedule has 4 put by for its looks.
    pub fn advance<L: Ledger, M: Ledger>(
        &mut self,
        head: Option<&Arrival>,
        events: &mut Seq<Event>,
        looks: &mut Steps<L>,
        changes: &mut Steps<M>,
    ) -> Result<Step, TurnEnd>
        requires fresh { is_some self.old.engine.tree ≡ true }
        requires turns { self.old.engine.turn < 2 ^ 63 }
        requires head { HeadComes (working self.old.program self.old.engine) (option_copied head) }
        requires late { IfSome (option_copied head) (λ arrival. self.old.engine.time ≤ arrival.time) }
        requires births { self.old.born < 2 ^ 63 + 2 ^ 62 }
        ensures ok { IfOk result (λ step. Tells (advance (system self.old.program) self.old.engine (option_copied head.entry)) events.old events.new (Ok (step, self.new.engine))) }
        ensures err { IfErr result (λ end. Tells (advance (system self.old.program) self.old.engine (option_copied head.entry)) events.old events.new (Err end)) }
        ensures delivered { IsTurnDelivered (system self.old.program) self.old.engine (option_copied head.entry) (drop (length events.old) events.new) result }
        ensures program { self.new.program ≡ self.old.program }
        ensures root { (number : ModelId) → IsRoot number self.old.engine → IfOk result (λ step. IsRoot number self.new.engine) }
        ensures spent { is_none self.new.engine.tree ≡ is_err result }
        ensures births { OnOk result (self.new.born ≤ self.old.born + 2 ^ 33) }
        ensures few { OnOk result (HasFewPairs self.new) }
        ensures paid { IfOk result (IsPaid self.old.program self.old.engine (option_copied head.entry) looks.old looks.new self.old.queued self.new.queued (work events.old) (work events.new)) }
    {
        advances_are_delivered();
        trees_stand();
        programs_lead_on();
        paths_are_short();
        let Some(time) = turn_time(self.next(), head) else {
            return Ok(Step::Quiet);
        };
        let number = self.turn + 1;
        let took_input = is_taken(head, time);
        self.spent = true;
        turn(
            self.alloc,
            self.program,
            &mut self.flat,
            number,
            time,
            items_at(head, time),
            events,
            looks,
            changes,
        )?;
        self.spent = false;
        self.turn = number;
        self.time = time;
        self.taken += u64::from(took_input);
        Ok(Step::Turned { took_input })
    }

    /// When the tree is due.
    fn next(&self) -> When
        requires { is_some self.now.engine.tree ≡ true }
        ensures { result ≡ next_of self.now.engine }
    {
        match self.flat.queue.least() {
            Some((time, _)) => When::At(time),
            None => When::Never,
        }
    }

    /// The tree of simulators, as it stands between two turns: each part of it copied once, in time that
    /// grows with the whole tree. `Memory` where there is none. The engine stays as it is.
    pub fn tree_of(&self) -> Result<Sim, Memory>
        requires { is_some self.now.engine.tree ≡ true }
        ensures { IfOk result (λ tree. Some tree ≡ self.now.engine.tree) }
    {
        tree_of(self.alloc, &self.flat)
    }

    /// How many turns are done.
    pub fn turn(&self) -> u64
        requires { is_some self.now.engine.tree ≡ true }
        ensures { result ≡ self.now.engine.turn }
    {
        self.turn
    }

    /// The time of the last turn, or 0.
    pub fn time(&self) -> u64
        requires { is_some self.now.engine.tree ≡ true }
        ensures { result ≡ self.now.engine.time }
    {
        self.time
    }

    /// How many records of the input are taken.
    pub fn taken(&self) -> u64
        requires { is_some self.now.engine.tree ≡ true }
        ensures value { result ≡ self.now.engine.taken }
        ensures within { result ≤ self.now.engine.turn }
    {
        self.taken
    }

    /// The time of the turn that comes next with this head of the input, if one comes.
    pub fn turn_time(&self, head: Option<&Arrival>) -> Option<u64>
        requires { is_some self.now.engine.tree ≡ true }
        ensures { result ≡ turn_time (next_of self.now.engine) (option_copied head.entry) }
    {
        turn_time(self.next(), head)
    }

    /// How many parts were born since it started.
    pub fn born(&self) -> u64
        ensures { result ≡ self.now.born }
    {
        self.flat.grove.born()
    }

    /// Whether a turn did not come to its end.
    pub fn spent(&self) -> bool
        ensures { result ≡ is_none self.now.engine.tree }
    {
        self.spent
    }
}

//! The engine that walks the whole tree: the start of a run, and its turns.

ghost use Rattle.std.specs.Prelude.{◌≡◌, ◌<◌, ◌≤◌, ◌^◌, Some, Ok, Err, is_some, is_none, is_err, true, IfOk, IfErr, IfSome, drop, length};
ghost use Rattle.std.specs.Option.{option_copied};
ghost use Rattle.dsde_sim_tree.specs.Told.{Tells};
ghost use Rattle.dsde_run.specs.given.system.Program.{system};
ghost use Rattle.dsde_language.specs.declared.ids.ModelId.{ModelId};
ghost use Rattle.dsde_language.specs.DeclaredModels.{top_number};
ghost use Rattle.dsde_sim_tree.specs.Engine.{next_of};
ghost use Rattle.dsde_sim_tree.specs.Turn.{start, advance, turn_time};
ghost use Rattle.dsde_sim_movers.specs.Delivered.{IsTurnDelivered};
ghost use Rattle.dsde_values.specs.When.{IsMoment};
ghost use Rattle.dsde_sim_movers.specs.Stands.{StandsTree};
ghost use Rattle.dsde_run.specs.given.sim_working.Working.{HeadComes, IsRoot, Stands, StandsAt, StandsIf, working};

use crate::turn::turn;
use dsde_run::given::program::Program;
use dsde_run::given::sim_moving::next_time;
use dsde_run::given::sim_working::{
    chosen, is_taken, items_at, programs_lead_on, started, turn_time,
};
use dsde_sim_movers::{advances_are_delivered, trees_stand};
use dsde_sim_tree::{Event, Sim, Step, TurnEnd};
use dsde_values::{Arrival, Memory, Seq};
use std::alloc::Global;
use std::marker::Model;

/// A program at work, which walks the whole tree at each turn.
#[derive(Drop)]
pub struct Plain<'p> {
    alloc: Global,
    program: &'p Program<'p>,
    tree: Option<Sim>,
    turn: u64,
    time: u64,
    taken: u64,
}

impl<'p> Model for Plain<'p> {
    ghost use Rattle.std.specs.Prelude.{◌≤◌};
    ghost use Rattle.dsde_run.specs.given.sim_working.Working.{Working, working, StandsAt, StandsIf};
    ghost use Rattle.dsde_syntax.specs.contracts.decl.Model as model;
    ghost use Rattle.dsde_sim_tree.specs.contracts.sim.Sim as sim;
    ghost use Rattle.std.specs.Coded.{codes};

    ghost Value = { Working };

    ghost coded = { Prim.hlevel (codes, model.the_row.coded, sim.the_row.coded) };

    ghost view = { λ plain. working plain.program.now (record {
      tree = plain.tree;
      turn = plain.turn;
      time = plain.time;
      taken = plain.taken;
    }) };

    ghost invariant = { λ plain. StandsIf plain.program.now plain.tree × (plain.taken ≤ plain.turn) × StandsAt plain.program.now (record {
      tree = plain.tree;
      turn = plain.turn;
      time = plain.time;
      taken = plain.taken;
    }) };
}

impl<'p> Plain<'p> {
    /// Starts the program at time 0, and tells it. After a fault the events before it were told,
    /// and without memory some of the events, from their front.
    pub fn start(
        alloc: Global,
        program: &'p Program<'p>,
        events: &mut Seq<Event>,
    ) -> Result<Plain<'p>, TurnEnd>
        ensures program { IfOk result (λ plain. plain.program ≡ program.now) }
        ensures ok { IfOk result (λ plain. Tells (start (system program.now)) events.old events.new (Ok plain.engine)) }
        ensures err { IfErr result (λ end. Tells (start (system program.now)) events.old events.new (Err end)) }
        ensures root { IfOk result (λ plain. IsRoot (top_number program.now) plain.engine) }
    {
        trees_stand();
        programs_lead_on();
        let args = chosen(alloc, program)?;
        let tree = started(alloc, program, args, events)?;
        Ok(Plain {
            alloc,
            program,
            tree: Some(tree),
            turn: 0,
            time: 0,
            taken: 0,
        })
    }

    /// The engine of a program with this tree, after so many turns, the last of them at this time, and
    /// so many records of the input taken: the tree is one of the program and stands at the time.
    pub fn from_tree(
        alloc: Global,
        program: &'p Program<'p>,
        tree: Sim,
        turn: u64,
        time: u64,
        taken: u64,
    ) -> Result<Plain<'p>, Memory>
        requires fits { Stands program.now tree }
        requires stands { StandsTree (system program.now) time tree }
        requires moment { IsMoment time }
        requires turn { turn < 2 ^ 63 }
        requires taken { taken ≤ turn }
        ensures { IfOk result (λ plain. plain ≡ working program.now (record { tree = Some tree; turn = turn; time = time; taken = taken })) }
    {
        Ok(Plain {
            alloc,
            program,
            tree: Some(tree),
            turn,
            time,
            taken,
        })
    }

    /// A law: the tree is one of the program, with no more parts than may be alive, and stands at the
    /// time of the last turn.
    pub fn stands(&self)
        ensures fits { StandsIf self.now.program self.now.engine.tree }
        ensures stands { StandsAt self.now.program self.now.engine }
    {
        let _ = &self.tree;
    }

    /// The program at work.
    pub fn program(&self) -> &'p Program<'p>
        ensures { result.now ≡ self.now.program }
    {
        self.program
    }

    /// Takes one turn with this head of the input, and tells it: at the lesser of the time of the
    /// next event and of the head, which is taken where the turn is at its time. A head is not before
    /// the time of the last turn.
    ///
    /// After a fault the events before it were told, and without memory some of the events, from
    /// their front. After either the engine is spent. `Quiet` comes exactly where there is no head
    /// and nothing will ever be due, and changes nothing.
    ///
    /// What it tells of the turn reaches only parts of the tree before it and none that it added,
    /// and each component and each executive receives what the links of that tree carry to it.
    pub fn advance(
        &mut self,
        head: Option<&Arrival>,
        events: &mut Seq<Event>,
    ) -> Result<Step, TurnEnd>
        requires fresh { is_some self.old.engine.tree ≡ true }
        requires turns { self.old.engine.turn < 2 ^ 63 }
        requires head { HeadComes self.old (option_copied head) }
        requires late { IfSome (option_copied head) (λ arrival. self.old.engine.time ≤ arrival.time) }
        ensures ok { IfOk result (λ step. Tells (advance (system self.old.program) self.old.engine (option_copied head.entry)) events.old events.new (Ok (step, self.new.engine))) }
        ensures err { IfErr result (λ end. Tells (advance (system self.old.program) self.old.engine (option_copied head.entry)) events.old events.new (Err end)) }
        ensures delivered { IsTurnDelivered (system self.old.program) self.old.engine (option_copied head.entry) (drop (length events.old) events.new) result }
        ensures program { self.new.program ≡ self.old.program }
        ensures root { (number : ModelId) → IsRoot number self.old.engine → IfOk result (λ step. IsRoot number self.new.engine) }
        ensures spent { is_none self.new.engine.tree ≡ is_err result }
    {
        advances_are_delivered();
        trees_stand();
        programs_lead_on();
        let Some(tree) = self.tree.take() else {
            unreachable!();
        };
        let Some(time) = turn_time(next_time(&tree), head) else {
            self.tree = Some(tree);
            return Ok(Step::Quiet);
        };
        let number = self.turn + 1;
        let took_input = is_taken(head, time);
        let tree = turn(
            self.alloc,
            self.program,
            tree,
            number,
            time,
            items_at(head, time),
            events,
        )?;
        self.tree = Some(tree);
        self.turn = number;
        self.time = time;
        self.taken += u64::from(took_input);
        Ok(Step::Turned { took_input })
    }

    /// The tree of simulators, as it is between two turns.
    pub fn tree(&self) -> &Sim
        requires { is_some self.now.engine.tree ≡ true }
        ensures { Some result.now ≡ self.now.engine.tree }
    {
        match &self.tree {
            Some(tree) => tree,
            None => unreachable!(),
        }
    }

    /// How many turns are done.
    pub fn turn(&self) -> u64
        requires { is_some self.now.engine.tree ≡ true }
        ensures { result ≡ self.now.engine.turn }
    {
        self.turn
    }

    /// The time of the last turn, or 0.
    pub fn time(&self) -> u64
        requires { is_some self.now.engine.tree ≡ true }
        ensures { result ≡ self.now.engine.time }
    {
        self.time
    }

    /// How many records of the input are taken.
    pub fn taken(&self) -> u64
        requires { is_some self.now.engine.tree ≡ true }
        ensures value { result ≡ self.now.engine.taken }
        ensures within { result ≤ self.now.engine.turn }
    {
        self.taken
    }

    /// The time of the turn that comes next with this head of the input, if one comes.
    pub fn turn_time(&self, head: Option<&Arrival>) -> Option<u64>
        requires { is_some self.now.engine.tree ≡ true }
        ensures { result ≡ turn_time (next_of self.now.engine) (option_copied head.entry) }
    {
        turn_time(next_time(self.tree()), head)
    }

    /// Whether a turn did not come to its end.
    pub fn spent(&self) -> bool
        ensures { result ≡ is_none self.now.engine.tree }
    {
        self.tree.is_none()
    }
}

//! The engine that draws: the start of a run, and its turns.

ghost use Rattle.std.specs.Prelude.{◌≡◌, ◌<◌, ◌≤◌, ◌^◌, Some, Ok, Err, is_some, is_none, is_err, true, IfOk, IfErr, IfSome, drop, length};
ghost use Rattle.std.specs.Option.{option_copied};
ghost use Rattle.dsde_language.specs.declared.ids.ModelId.{ModelId};
ghost use Rattle.dsde_language.specs.DeclaredModels.{top_number};
ghost use Rattle.dsde_sim_tree.specs.Told.{Tells};
ghost use Rattle.dsde_run.specs.given.system.Program.{system};
ghost use Rattle.dsde_sim_tree.specs.Engine.{next_of};
ghost use Rattle.dsde_sim_tree.specs.Turn.{turn_time};
ghost use Rattle.dsde_run.specs.given.sim_working.Working.{HeadComes, IsRoot, StandsIf, working};
ghost use Rattle.dsde_order.specs.Free.{advance, start};
ghost use Rattle.dsde_run_free.specs.Drawn.{AgreesWithPathOrder};

use crate::turn::drawn_turn;
use dsde_order::drawn_advances_agree;
use dsde_order::given::sim_moving::next_time;
use dsde_run::given::program::Program;
use dsde_run::given::sim_working::{
    chosen, fitting_trees_are_named, is_taken, items_at, started, turn_time,
};
use dsde_sim_tree::{Event, Sim, Step, TurnEnd};
use dsde_values::{Arrival, Seq};
use rand_core::SeedableRng;
use rand_pcg::Lcg64Xsh32;
use std::alloc::Global;
use std::marker::Model;

/// A program at work, whose components and executives move in each turn in an order that is drawn. It
/// walks the whole tree at each turn.
#[derive(Drop)]
pub struct Free<'p> {
    alloc: Global,
    program: &'p Program<'p>,
    tree: Option<Sim>,
    turn: u64,
    time: u64,
    taken: u64,
    words: Lcg64Xsh32,
}

impl<'p> Model for Free<'p> {
    ghost use Rattle.std.specs.Prelude.{◌≤◌};
    ghost use Rattle.dsde_run.specs.given.sim_working.Working.{StandsIf};
    ghost use Rattle.dsde_run_free.specs.Drawn.{Drawn, drawn};
    ghost use Rattle.dsde_syntax.specs.contracts.decl.Model as model;
    ghost use Rattle.dsde_sim_tree.specs.contracts.sim.Sim as sim;
    ghost use Rattle.std.specs.Coded.{codes};

    ghost Value = { Drawn };

    ghost coded = { Prim.hlevel (codes, model.the_row.coded, sim.the_row.coded) };

    ghost view = { λ free. drawn free.program.now (record {
      engine = record {
        tree = free.tree;
        turn = free.turn;
        time = free.time;
        taken = free.taken;
      };
      generator = free.words;
    }) };

    ghost invariant = { λ free. StandsIf free.program.now free.tree × (free.taken ≤ free.turn) };
}

impl<'p> Free<'p> {
    /// Starts the program at time 0, and tells it; its turns draw by the words of the generator of a
    /// seed. After a fault the events before it were told, and without memory some of the events, from
    /// their front.
    pub fn start(
        alloc: Global,
        program: &'p Program<'p>,
        seed: u64,
        events: &mut Seq<Event>,
    ) -> Result<Free<'p>, TurnEnd>
        ensures program { IfOk result (λ free. free.program ≡ program.now) }
        ensures ok { IfOk result (λ free. Tells (start (system program.now) seed) events.old events.new (Ok free.drawing)) }
        ensures err { IfErr result (λ end. Tells (start (system program.now) seed) events.old events.new (Err end)) }
        ensures root { IfOk result (λ free. IsRoot (top_number program.now) free.drawing.engine) }
    {
        let args = chosen(alloc, program)?;
        let tree = started(alloc, program, args, events)?;
        Ok(Free {
            alloc,
            program,
            tree: Some(tree),
            turn: 0,
            time: 0,
            taken: 0,
            words: Lcg64Xsh32::seed_from_u64(seed),
        })
    }

    /// The program at work.
    pub fn program(&self) -> &'p Program<'p>
        ensures { result.now ≡ self.now.program }
    {
        self.program
    }

    /// Takes one turn with this head of the input, and tells it: at the lesser of the time of the
    /// next event and of the head, which is taken where the turn is at its time. A head is not before
    /// the time of the last turn. Its components and executives move in the order that the next words
    /// of the generator draw, of which each takes one.
    ///
    /// After a fault the events before it were told, and without memory some of the events, from
    /// their front. After either the engine is spent. `Quiet` comes exactly where there is no head
    /// and nothing will ever be due, and changes nothing.
    ///
    /// It comes to the tree that the turn in path order comes to, and tells its events up to their
    /// order, where that does not fault either.
    pub fn advance(
        &mut self,
        head: Option<&Arrival>,
        events: &mut Seq<Event>,
    ) -> Result<Step, TurnEnd>
        requires fresh { is_some self.old.drawing.engine.tree ≡ true }
        requires turns { self.old.drawing.engine.turn < 2 ^ 63 }
        requires head { HeadComes (working self.old.program self.old.drawing.engine) (option_copied head) }
        requires late { IfSome (option_copied head) (λ arrival. self.old.drawing.engine.time ≤ arrival.time) }
        ensures ok { IfOk result (λ step. Tells (advance (system self.old.program) self.old.drawing (option_copied head.entry)) events.old events.new (Ok (step, self.new.drawing))) }
        ensures err { IfErr result (λ end. Tells (advance (system self.old.program) self.old.drawing (option_copied head.entry)) events.old events.new (Err end)) }
        ensures agrees { IfOk result (λ step. AgreesWithPathOrder (system self.old.program) self.old.drawing.engine (option_copied head.entry) step self.new.drawing.engine (drop (length events.old) events.new)) }
        ensures program { self.new.program ≡ self.old.program }
        ensures root { (number : ModelId) → IsRoot number self.old.drawing.engine → IfOk result (λ step. IsRoot number self.new.drawing.engine) }
        ensures spent { is_none self.new.drawing.engine.tree ≡ is_err result }
    {
        fitting_trees_are_named();
        drawn_advances_agree();
        let Some(tree) = self.tree.take() else {
            unreachable!();
        };
        let Some(time) = turn_time(next_time(&tree), head) else {
            self.tree = Some(tree);
            return Ok(Step::Quiet);
        };
        let number = self.turn + 1;
        let took_input = is_taken(head, time);
        let tree = drawn_turn(
            self.alloc,
            self.program,
            tree,
            number,
            time,
            items_at(head, time),
            &mut self.words,
            events,
        )?;
        self.tree = Some(tree);
        self.turn = number;
        self.time = time;
        self.taken += u64::from(took_input);
        Ok(Step::Turned { took_input })
    }

    /// The tree of simulators, as it is between two turns.
    pub fn tree(&self) -> &Sim
        requires { is_some self.now.drawing.engine.tree ≡ true }
        ensures { Some result.now ≡ self.now.drawing.engine.tree }
    {
        match &self.tree {
            Some(tree) => tree,
            None => unreachable!(),
        }
    }

    /// How many turns are done.
    pub fn turn(&self) -> u64
        requires { is_some self.now.drawing.engine.tree ≡ true }
        ensures { result ≡ self.now.drawing.engine.turn }
    {
        self.turn
    }

    /// The time of the last turn, or 0.
    pub fn time(&self) -> u64
        requires { is_some self.now.drawing.engine.tree ≡ true }
        ensures { result ≡ self.now.drawing.engine.time }
    {
        self.time
    }

    /// How many records of the input are taken.
    pub fn taken(&self) -> u64
        requires { is_some self.now.drawing.engine.tree ≡ true }
        ensures value { result ≡ self.now.drawing.engine.taken }
        ensures within { result ≤ self.now.drawing.engine.turn }
    {
        self.taken
    }

    /// The time of the turn that comes next with this head of the input, if one comes.
    pub fn turn_time(&self, head: Option<&Arrival>) -> Option<u64>
        requires { is_some self.now.drawing.engine.tree ≡ true }
        ensures { result ≡ turn_time (next_of self.now.drawing.engine) (option_copied head.entry) }
    {
        turn_time(next_time(self.tree()), head)
    }

    /// Whether a turn did not come to its end.
    pub fn spent(&self) -> bool
        ensures { result ≡ is_none self.now.drawing.engine.tree }
    {
        self.tree.is_none()
    }
}

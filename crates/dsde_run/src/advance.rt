//! An engine as a run sees it.

ghost use Rattle.std.specs.Prelude.{◌≡◌, ◌+◌, ◌<◌, ◌≤◌, ◌^◌, ℕ, Option, Ok, Err, is_some, is_none, is_err, true, IfOk, IfErr, IfSome, OnOk};
ghost use Rattle.std.specs.Option.{option_copied};
ghost use Rattle.dsde_syntax.specs.declared.decl.Model.{Model};
ghost use Rattle.dsde_language.specs.declared.ids.ModelId.{ModelId};
ghost use Rattle.dsde_values.specs.declared.arrival.Arrival.{Arrival};
ghost use Rattle.dsde_sim_tree.specs.Told.{Told, Tells};
ghost use Rattle.dsde_sim_tree.specs.declared.step.Step.{Step};
ghost use Rattle.dsde_sim_tree.specs.Engine.{Engine, next_of};
ghost use Rattle.dsde_sim_tree.specs.Turn.{turn_time};
ghost use Rattle.dsde_core.specs.given.sim_working.Working.{HeadComes, IsRoot, working};
ghost use Rattle.dsde_run.specs.Advancing.{StepsOn};

use dsde_sim_tree::{Event, Step, TurnEnd};
use dsde_values::{Arrival, Seq};

/// An engine that takes the turns of a run of a program, one after the other.
///
/// Contracts see the program and a state, which has an engine in the sense of the definitions, and
/// whatever else its advances go by.
pub trait Advance {
    /// What the engine stands at between two turns.
    ghost State: { Type 0 };

    /// The program at work.
    ghost program: { Self → Model };

    /// The state that it is at.
    ghost state: { Self → State };

    /// The engine of a state.
    ghost engine: { State → Engine };

    /// How many parts were born in it since it started, where it counts them; otherwise 0.
    ghost born: { Self → ℕ };

    /// What an advance of a program tells from a state with this head of the input, and what it comes to.
    ghost advance: { Model → State → Option Arrival → Told (Step × State) };

    /// How many turns are done.
    fn turn(&self) -> u64
        requires { is_some (engine (state self.now)).tree ≡ true }
        ensures { result ≡ (engine (state self.now)).turn };

    /// The time of the last turn, or 0.
    fn time(&self) -> u64
        requires { is_some (engine (state self.now)).tree ≡ true }
        ensures { result ≡ (engine (state self.now)).time };

    /// The time of the turn that comes next with this head of the input, if one comes.
    fn turn_time(&self, head: Option<&Arrival>) -> Option<u64>
        requires { is_some (engine (state self.now)).tree ≡ true }
        ensures { result ≡ turn_time (next_of (engine (state self.now))) (option_copied head.entry) };

    /// Takes one turn with this head of the input, which is not before the time of the last turn, and
    /// tells it. After a fault the events before it were told, and without memory some of the events,
    /// from their front. After either the engine is spent. `Quiet` comes only where there is no head,
    /// and changes nothing. At most 2^33 parts are born in a turn, and an engine takes one
    /// where fewer than 2^63 + 2^62 were born before.
    fn advance(&mut self, head: Option<&Arrival>, events: &mut Seq<Event>) -> Result<Step, TurnEnd>
        requires fresh { is_some (engine (state self.old)).tree ≡ true }
        requires turns { (engine (state self.old)).turn < 2 ^ 63 }
        requires head { HeadComes (working (program self.old) (engine (state self.old))) (option_copied head) }
        requires late { IfSome (option_copied head) (λ arrival. (engine (state self.old)).time ≤ arrival.time) }
        requires births { born self.old < 2 ^ 63 + 2 ^ 62 }
        ensures ok { IfOk result (λ step. Tells (advance (program self.old) (state self.old) (option_copied head.entry)) events.old events.new (Ok (step, state self.new))) }
        ensures err { IfErr result (λ end. Tells (advance (program self.old) (state self.old) (option_copied head.entry)) events.old events.new (Err end)) }
        ensures steps { IfOk result (StepsOn engine (state self.old) (state self.new) (option_copied head.entry)) }
        ensures program { program self.new ≡ program self.old }
        ensures root { (number : ModelId) → IsRoot number (engine (state self.old)) → IfOk result (λ step. IsRoot number (engine (state self.new))) }
        ensures spent { is_none (engine (state self.new)).tree ≡ is_err result }
        ensures births { OnOk result (born self.new ≤ born self.old + 2 ^ 33) };
}

//! The engine whose parts move in path order, as a run sees it.

ghost use Rattle.std.specs.Prelude.{◌≡◌, ◌+◌, ◌<◌, ◌≤◌, ◌^◌, Ok, Err, is_some, is_none, is_err, true, IfOk, IfErr, IfSome, OnOk};
ghost use Rattle.std.specs.Option.{option_copied};
ghost use Rattle.dsde_language.specs.declared.ids.ModelId.{ModelId};
ghost use Rattle.dsde_sim_tree.specs.Told.{Tells};
ghost use Rattle.dsde_image_rows.specs.given.system.Program.{system};
ghost use Rattle.dsde_sim_tree.specs.Turn.{advance};
ghost use Rattle.dsde_core.specs.given.sim_working.Working.{HeadComes, IsRoot, working};

use crate::advance::Advance;
use dsde_base::Steps;
use dsde_core::Core;
use dsde_sim_tree::{Event, Step, TurnEnd};
use dsde_values::{Arrival, Seq};
use std::marker::Brand;
use std::sync::ledger::{Blank, Ledger};

/// Takes a turn with counts of looks and of changes of its own, which are kept nowhere.
fn advance_counted<L: Ledger, M: Ledger>(
    core: &mut Core<'_>,
    head: Option<&Arrival>,
    events: &mut Seq<Event>,
    looked: Blank,
    changed: Blank,
) -> Result<Step, TurnEnd>
    requires looked_name { looked.name ≡ L.name }
    requires looked_parts { looked.parts ≡ L.parts }
    requires looked_backed { 0 < looked.parts }
    requires changed_name { changed.name ≡ M.name }
    requires changed_parts { changed.parts ≡ M.parts }
    requires changed_backed { 0 < changed.parts }
    requires fresh { is_some core.old.engine.tree ≡ true }
    requires turns { core.old.engine.turn < 2 ^ 63 }
    requires head { HeadComes (working core.old.program core.old.engine) (option_copied head) }
    requires late { IfSome (option_copied head) (λ arrival. core.old.engine.time ≤ arrival.time) }
    requires births { core.old.born < 2 ^ 63 + 2 ^ 62 }
    ensures ok { IfOk result (λ step. Tells (advance (system core.old.program) core.old.engine (option_copied head.entry)) events.old events.new (Ok (step, core.new.engine))) }
    ensures err { IfErr result (λ end. Tells (advance (system core.old.program) core.old.engine (option_copied head.entry)) events.old events.new (Err end)) }
    ensures program { core.new.program ≡ core.old.program }
    ensures root { (number : ModelId) → IsRoot number core.old.engine → IfOk result (λ step. IsRoot number core.new.engine) }
    ensures spent { is_none core.new.engine.tree ≡ is_err result }
    ensures births { OnOk result (core.new.born ≤ core.old.born + 2 ^ 33) }
{
    let mut looks = Steps::<L>::new(looked);
    let mut changes = Steps::<M>::new(changed);
    core.advance(head, events, &mut looks, &mut changes)
}

impl<'p> Advance for Core<'p> {
    ghost use Rattle.dsde_image_rows.specs.given.system.Program.{system};
    ghost use Rattle.dsde_sim_tree.specs.Engine.{Engine};
    ghost use Rattle.dsde_sim_tree.specs.Turn as turn;
    ghost use Rattle.dsde_run_meaning.specs.Run.{alone};

    ghost State = { Engine };

    ghost program = { λ core. core.program };

    ghost state = { λ core. core.engine };

    ghost engine = { alone };

    ghost born = { λ core. core.born };

    ghost advance = { λ program engine head. turn.advance (system program) engine head };

    fn turn(&self) -> u64 {
        Core::turn(self)
    }

    fn time(&self) -> u64 {
        Core::time(self)
    }

    fn turn_time(&self, head: Option<&Arrival>) -> Option<u64> {
        Core::turn_time(self, head)
    }

    fn advance(
        &mut self,
        head: Option<&Arrival>,
        events: &mut Seq<Event>,
    ) -> Result<Step, TurnEnd> {
        advance_counted::<Brand, Brand>(self, head, events, Blank::new(1), Blank::new(1))
    }
}

//! The engine that walks the whole tree, as a run sees it.

use crate::plain::Plain;
use dsde_run::Advance;
use dsde_sim_tree::{Event, Step, TurnEnd};
use dsde_values::{Arrival, Seq};

impl<'p> Advance for Plain<'p> {
    ghost use Rattle.dsde_run.specs.given.system.Program.{system};
    ghost use Rattle.dsde_sim_tree.specs.Engine.{Engine};
    ghost use Rattle.dsde_sim_tree.specs.Turn as turn;
    ghost use Rattle.dsde_run.specs.given.run_meaning.Run.{alone};

    ghost State = { Engine };

    ghost program = { λ plain. plain.program };

    ghost state = { λ plain. plain.engine };

    ghost engine = { alone };

    ghost born = { λ plain. 0 };

    ghost advance = { λ program engine head. turn.advance (system program) engine head };

    fn turn(&self) -> u64 {
        Plain::turn(self)
    }

    fn time(&self) -> u64 {
        Plain::time(self)
    }

    fn turn_time(&self, head: Option<&Arrival>) -> Option<u64> {
        Plain::turn_time(self, head)
    }

    fn advance(
        &mut self,
        head: Option<&Arrival>,
        events: &mut Seq<Event>,
    ) -> Result<Step, TurnEnd> {
        Plain::advance(self, head, events)
    }
}

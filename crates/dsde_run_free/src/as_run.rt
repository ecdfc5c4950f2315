//! The engine that draws, as a run sees it.

use crate::free::Free;
use dsde_run::Advance;
use dsde_sim_tree::{Event, Step, TurnEnd};
use dsde_values::{Arrival, Seq};

impl<'p> Advance for Free<'p> {
    ghost use Rattle.dsde_run.specs.given.system.Program.{system};
    ghost use Rattle.dsde_order.specs.Free as drawing;
    ghost use Rattle.dsde_order.specs.Free.{Drawing};
    ghost use Rattle.dsde_run_free.specs.Drawn.{engine_of};

    ghost State = { Drawing };

    ghost program = { λ free. free.program };

    ghost state = { λ free. free.drawing };

    ghost engine = { engine_of };

    ghost born = { λ free. 0 };

    ghost advance = { λ program own head. drawing.advance (system program) own head };

    fn turn(&self) -> u64 {
        Free::turn(self)
    }

    fn time(&self) -> u64 {
        Free::time(self)
    }

    fn turn_time(&self, head: Option<&Arrival>) -> Option<u64> {
        Free::turn_time(self, head)
    }

    fn advance(
        &mut self,
        head: Option<&Arrival>,
        events: &mut Seq<Event>,
    ) -> Result<Step, TurnEnd> {
        Free::advance(self, head, events)
    }
}

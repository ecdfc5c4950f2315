//! Which lines of a trace are kept.

ghost use Rattle.std.specs.Prelude.{◌≡◌};
ghost use Rattle.dsde_trace.specs.Pick.{picked};

use dsde_sim_tree::Event;

/// Which lines of a trace are kept.
#[derive(Clone, Copy)]
pub enum Pick {
    All,
    /// The lines of turns, of what the root sends, and of the end.
    Outputs,
    /// The lines of turns, of starts and drops, and of the end.
    Structure,
}

/// Whether a selection keeps the line of an event.
pub fn picked(event: &Event, pick: Pick) -> bool
    ensures { result ≡ picked event.now pick }
{
    match event {
        Event::Turn { .. } | Event::Finish { .. } => true,
        Event::Out { .. } => match pick {
            Pick::All | Pick::Outputs => true,
            Pick::Structure => false,
        },
        Event::AddNet { .. } | Event::AddLeaf { .. } | Event::Drop { .. } => match pick {
            Pick::All | Pick::Structure => true,
            Pick::Outputs => false,
        },
        Event::Get { .. } | Event::Move { .. } => match pick {
            Pick::All => true,
            Pick::Outputs | Pick::Structure => false,
        },
    }
}

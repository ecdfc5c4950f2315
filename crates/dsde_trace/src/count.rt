//! Counting the events of a trace.

ghost use Rattle.std.specs.Prelude.{◌≡◌};
ghost use Rattle.dsde_trace.specs.Count.{counted, HasRoom};

use dsde_sim_tree::Event;

/// How many events of each kind a trace has. Executives are counted as parts that start.
#[derive(Clone, Copy)]
pub struct Summary {
    pub turns: u128,
    pub adds: u128,
    pub drops: u128,
    pub gets: u128,
    pub moves: u128,
    pub outs: u128,
}

/// Counts one event more. No count stands at the last number.
pub fn count_event(summary: &mut Summary, event: &Event)
    requires { HasRoom summary.old }
    ensures { summary.new ≡ counted summary.old event.now }
{
    match event {
        Event::Turn { .. } => summary.turns += 1,
        Event::AddNet { .. } | Event::AddLeaf { .. } => summary.adds += 1,
        Event::Drop { .. } => summary.drops += 1,
        Event::Get { .. } => summary.gets += 1,
        Event::Move { .. } => summary.moves += 1,
        Event::Out { .. } => summary.outs += 1,
        Event::Finish { .. } => {}
    }
}

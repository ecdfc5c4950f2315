//! What a turn begins with.

ghost use Rattle.std.specs.Prelude.{◌≡◌, ◌+◌, ◌*◌, ◌<◌, ◌≤◌, ◌^◌, ℕ, length, map, IfOk, IfSome, OnOk};
ghost use Rattle.std.specs.Option.{option_map};
ghost use Rattle.dsde_values.specs.Path.{root};
ghost use Rattle.dsde_values.specs.When.{IsMoment};
ghost use Rattle.dsde_sim_working.specs.given.system.Program.{system};
ghost use Rattle.dsde_sim_tree.specs.Told.{Comes};
ghost use Rattle.dsde_sim_tree.specs.Output.{output};
ghost use Rattle.dsde_sim_tree.specs.Tree.{model_of};
ghost use Rattle.dsde_sim_working.specs.Working.{FitsItems};
ghost use Rattle.dsde_queue.specs.Queue.{first_of, time_of, IsOrdered};
ghost use Rattle.dsde_core_parcels.specs.given.core_flat.Scheduled.{IsScheduled, IsScheduledBut};
ghost use Rattle.dsde_core_parcels.specs.given.core_flat.Stands.{IsShallow};
ghost use Rattle.dsde_core_parcels.specs.given.core_moves.Flat.{tree_of, Stands};
ghost use Rattle.dsde_core_outputs.specs.Rows.{HasRows};
ghost use Rattle.dsde_core_parcels.specs.given.core_moves.Movers.{handle_of, list_of, ports_of, sent_of, with_queue, AreMovers};

use crate::alone_laws::lone_components_move;
use crate::net_movers;
use crate::single::root_movers;
use dsde_base::Steps;
use dsde_core_parcels::given::core_flat::{lone_due_wait, pass_due, turn_due};
use dsde_core_parcels::given::core_moves::{Flat, Phase};
use dsde_sim_tree::TurnEnd;
use dsde_sim_working::given::program::Program;
use dsde_values::Item;
use std::alloc::Global;
use std::sync::ledger::Ledger;

/// Takes those who are due at a turn's time out of the schedule, in which none is earlier, and asks them for what they
/// send, one after another in path order: a fault is the first one that comes, that of the output message of the tree.
/// Gives what the root sends, port by port, and those who move: whoever is due or gets something, in path order, each
/// with what it receives. They wait for their moves. Each pair that leaves pays for its looks with 4; beside them
/// at most 69 are counted for each mover, 67 for each row from the ports that send, and 2. After a fault, and
/// after `Memory`, some pairs have left.
pub fn turn_movers<L: Ledger>(
    alloc: Global,
    program: &Program,
    flat: &mut Flat,
    time: u64,
    items: &[Item],
    looks: &mut Steps<L>,
) -> Result<Phase, TurnEnd>
    requires moment { IsMoment time }
    requires stands { Stands program.now flat.old }
    requires scheduled { IsScheduled flat.old.grove flat.old.queue.pairs }
    requires ordered { IsOrdered flat.old.queue.pairs }
    requires least { IfSome (option_map time_of (first_of flat.old.queue.pairs)) (λ first. time ≤ first) }
    requires shallow { IsShallow flat.old.grove }
    requires items { FitsItems program.now (model_of (tree_of flat.old)).0 items.now }
    ensures comes { Comes (output (system program.now) (tree_of flat.old) root time) (sent_of result) }
    ensures few { IfOk result (λ phase. length (ports_of phase.sent) < 2 ^ 32) }
    ensures movers { IfOk result (λ phase. AreMovers program.now flat.new time items.now (list_of phase.movers)) }
    ensures same { OnOk result (flat.new ≡ with_queue flat.old flat.new.queue) }
    ensures waits { IfOk result (λ phase. IsScheduledBut flat.new.grove (map handle_of (list_of phase.movers)) flat.new.queue.pairs) }
    ensures paid { IfOk result (λ phase. (rows : ℕ) × HasRows program.now flat.old time items.now rows
        × (looks.new + 4 * length flat.new.queue.pairs ≤ looks.old + 2 + 4 * length flat.old.queue.pairs + 69 * length (list_of phase.movers) + 67 * rows)) }
{
    lone_due_wait();
    lone_components_move();
    if flat.wiring.is_none() {
        pass_due(&mut flat.queue, time);
        return root_movers(alloc, program, flat, time, items, looks);
    }
    let due = turn_due(alloc, &flat.grove, &mut flat.queue, time, looks)?;
    net_movers(alloc, program, flat, due, time, items, looks)
}

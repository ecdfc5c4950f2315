//! Components of a network by their names and their places.

ghost use Rattle.std.specs.Prelude.{◌≡◌, ◌<◌, length, Some, MatchOption};
ghost use Rattle.dsde_sim_movers.specs.lemmas.Seats.{NoneNamed};
ghost use Rattle.dsde_order.specs.Seating.{IsAt, sim_at, with_sim};

use dsde_language::ModelId;
use dsde_sim_tree::given::formalism::Leaf;
use dsde_sim_tree::{Kid, Sim};
use dsde_values::{Name, Seq, When, one_name};
use std::alloc::Global;
use std::mem;

/// Where the component of a name stands among those of a network.
pub(crate) fn index_of(kids: &[Kid], name: &Name) -> Option<usize>
    ensures { MatchOption result (NoneNamed name.now kids.now) (IsAt name.now kids.now) }
{
    one_name();
    for (index, kid) in kids.iter().enumerate() {
        if kid.name == *name {
            return Some(index);
        }
    }
    None
}

/// Gives the component at an index another simulator, and takes out the one that it had.
pub(crate) fn exchange(kids: &mut Seq<Kid>, index: usize, sim: Sim) -> Sim
    requires { index < length kids.old }
    ensures kids { kids.new ≡ with_sim index sim kids.old }
    ensures taken { sim_at index kids.old ≡ Some result }
{
    match kids.get_mut(index) {
        Some(kid) => mem::replace(&mut kid.sim, sim),
        None => unreachable!(),
    }
}

/// A simulator that stands where another was taken out.
pub(crate) fn stand_in(alloc: Global) -> Sim {
    Sim::Leaf(Leaf {
        model: ModelId(0),
        boss: false,
        args: Seq::new(alloc),
        state: Seq::new(alloc),
        last: 0,
        next: When::Never,
    })
}

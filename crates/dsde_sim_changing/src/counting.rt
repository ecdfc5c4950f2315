//! The parts of a simulator and the time at which it is due.

ghost use Rattle.std.specs.Prelude.{◌≡◌, ◌<◌, ◌^◌};
ghost use Rattle.dsde_sim_tree.specs.Tree.{parts, next_time, sooner};

use dsde_sim_tree::Sim;
use dsde_values::When;

/// How many atomic components, networks and executives a simulator has.
pub fn parts(sim: &Sim) -> u64
    requires { parts sim.now < 2 ^ 64 }
    ensures { result ≡ parts sim.now }
{
    match sim {
        Sim::Leaf(_) => 1,
        Sim::Net(net) => {
            let net = net.get();
            let mut count = 2;
            for kid in net.kids.as_slice() {
                count += parts(&kid.sim);
            }
            count
        }
    }
}

/// The earlier of two times.
fn sooner(time: When, other: When) -> When
    ensures { result ≡ sooner time other }
{
    match (time, other) {
        (When::At(time), When::At(other)) => When::At(time.min(other)),
        (When::At(time), When::Never) => When::At(time),
        (When::Never, other) => other,
    }
}

/// The least time at which a component or an executive is due.
pub fn next_time(sim: &Sim) -> When
    ensures { result ≡ next_time sim.now }
{
    match sim {
        Sim::Leaf(leaf) => leaf.next,
        Sim::Net(net) => {
            let net = net.get();
            let mut next = net.boss.next;
            for kid in net.kids.as_slice() {
                next = sooner(next, next_time(&kid.sim));
            }
            next
        }
    }
}

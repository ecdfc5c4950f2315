//! The tree of a flat state, copied.

ghost use Rattle.std.specs.Prelude.{◌≡◌, ◌<◌, IfOk};
ghost use Rattle.dsde_core_moving.specs.given.core_flat.Stands.{StandsFor};
ghost use Rattle.dsde_core_moving.specs.given.core_moves.Flat.{tree_of};
ghost use Rattle.dsde_core.specs.Live.{IsLive};

use crate::held::leaf_under;
use crate::showing::net_shown;
use dsde_base::Steps;
use dsde_core_moving::given::core_moves::Flat;
use dsde_lists::Memory;
use dsde_sim_tree::Sim;
use std::alloc::Global;
use std::marker::Brand;
use std::sync::ledger::{Blank, Ledger};

/// `tree_of` with a count of looks of its own, which is kept nowhere.
fn tree_shown<L: Ledger>(alloc: Global, flat: &Flat, blank: Blank) -> Result<Sim, Memory>
    requires name { blank.name ≡ L.name }
    requires parts { blank.parts ≡ L.parts }
    requires backed { 0 < blank.parts }
    requires live { IsLive flat.now.grove flat.now.root flat.now.wiring }
    ensures { IfOk result (λ tree. tree ≡ tree_of flat.now) }
{
    let mut looks = Steps::<L>::new(blank);
    match &flat.wiring {
        None => {
            let leaf = leaf_under(alloc, &flat.grove, flat.root, &mut looks)?;
            Ok(Sim::Leaf(leaf))
        }
        Some(net) => {
            let net = net_shown(alloc, &flat.grove, flat.root, net, &mut looks)?;
            Ok(Sim::Net(net))
        }
    }
}

/// The tree that a flat state shows, each of its parts copied once. `Memory` where there is none. At most 2
/// looks a part are made, which are counted nowhere.
pub fn tree_of(alloc: Global, flat: &Flat) -> Result<Sim, Memory>
    requires { StandsFor flat.now.grove flat.now.root flat.now.wiring (tree_of flat.now) }
    ensures { IfOk result (λ tree. tree ≡ tree_of flat.now) }
{
    tree_shown::<Brand>(alloc, flat, Blank::new(1))
}

//! Components in the order of their names.

ghost use Rattle.std.specs.Prelude.{◌++◌, map, IfOk, IsPermutation};
ghost use Rattle.std.specs.List.{IsDistinct};
ghost use Rattle.dsde_routes_wiring.specs.given.structure.Gather.{is_same_name};
ghost use Rattle.dsde_repair_walks.specs.Found.{InOrder, name_of};

use crate::parts::together;
use dsde_lists::Memory;
use dsde_routes_wiring::WiredKid;
use dsde_values::{Seq, compare_names, orders_are_total};
use std::alloc::Global;

/// Components together with others, all of different names, in the order of these.
pub fn in_order(
    alloc: Global,
    kids: Seq<WiredKid>,
    more: Seq<WiredKid>,
) -> Result<Seq<WiredKid>, Memory>
    requires { IsDistinct is_same_name (map name_of (kids ++ more)) }
    ensures same { IfOk result (λ all. IsPermutation (kids ++ more) all) }
    ensures order { IfOk result (λ all. InOrder all) }
{
    orders_are_total();
    let all = together(kids, more)?;
    let mut all = all.into_vec();
    all.sort_by(|kid: &WiredKid, other: &WiredKid| compare_names(&kid.name, &other.name))?;
    Ok(Seq::from_vec(all))
}

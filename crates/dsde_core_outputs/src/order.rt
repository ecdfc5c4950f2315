//! The order of movers.

ghost use Rattle.std.specs.Prelude.{◌++◌, IfOk, IsPermutation, IsSorted};
ghost use Rattle.std.specs.List.{AllByRecursion};
ghost use Rattle.dsde_core_parcels.specs.Calling.{mover_cmp, IsFew};

use dsde_core_parcels::given::core_moves::Mover;
use dsde_sim_working::given::check_tables::narrow;
use dsde_values::{Memory, Seq, compare_paths};

/// No mover gets values at more ports than 32 bits count, or `Memory`.
pub fn have_few_ports(movers: &[Mover]) -> Result<(), Memory>
    ensures { IfOk result (λ all. AllByRecursion IsFew movers.now) }
{
    for mover in movers {
        narrow(mover.got.len())?;
    }
    Ok(())
}

/// Movers and others, in path order, where the first stand in it. If there are no others nothing is sorted;
/// std's sort merges lists that stand in order. `Memory` where there is none: then they are gone.
pub fn in_path_order(due: Seq<Mover>, told: Seq<Mover>) -> Result<Seq<Mover>, Memory>
    requires { IsSorted mover_cmp due }
    ensures same { IfOk result (IsPermutation (due ++ told)) }
    ensures order { IfOk result (IsSorted mover_cmp) }
{
    if told.is_empty() {
        return Ok(due);
    }
    let mut all = due.into_vec();
    let mut others = told.into_vec();
    all.append(&mut others)?;
    all.sort_by(|one: &Mover, other: &Mover| compare_paths(&one.path, &other.path))?;
    Ok(Seq::from_vec(all))
}

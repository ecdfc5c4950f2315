//! Path order.

ghost use Rattle.std.specs.Prelude.{IsPermutation, IsSorted, IfOk};
ghost use Rattle.dsde_core_flat.specs.Due.{due_cmp};

use crate::due::Due;
use dsde_lists::Memory;
use dsde_values::compare_paths;

/// They are sorted by their paths.
pub(crate) fn in_path_order(mut list: Vec<Due>) -> Result<Vec<Due>, Memory>
    ensures same { IfOk result (λ sorted. IsPermutation list.items sorted.items) }
    ensures order { IfOk result (λ sorted. IsSorted due_cmp sorted.items) }
{
    list.sort_by(|due: &Due, other: &Due| compare_paths(&due.path, &other.path))?;
    Ok(list)
}

//! Taking out a part and all below it.

ghost use Rattle.std.specs.Prelude.{◌≡◌, ◌+◌, ◌≤◌, [], Some, IsSome};
ghost use Rattle.std.specs.FinMap as map;
ghost use Rattle.dsde_bank.specs.Bank.{found};
ghost use Rattle.dsde_grove.specs.Inside.{IsLinked, TakesAll, IsNameOf};

use crate::part::Part;
use dsde_bank::{Bank, Batch, Handle};
use dsde_base::Steps;
use dsde_values::Name;
use std::sync::ledger::Ledger;

/// Takes out a live part and all parts below it, and answers its name. The work list is empty before
/// and after, and has room for all parts. Counts one look for each part that is taken out.
pub fn take_all<T: Drop, L: Ledger>(
    bank: &mut Bank<Part<T>>,
    work: &mut Batch<Handle>,
    top: Handle,
    looks: &mut Steps<L>,
) -> Name
    requires tree { IsLinked bank.old.held bank.old.next_birth }
    requires live { IsSome (found bank.old top) }
    requires idle { work.old.items ≡ [] }
    requires room { map.len bank.old.held ≤ work.old.spare }
    ensures name { IsNameOf bank.old top result }
    ensures taken { TakesAll bank.old bank.new top }
    ensures idle { work.new ≡ work.old }
    ensures ticks { looks.new + map.len bank.new.held ≡ looks.old + map.len bank.old.held }
{
    let first = bank.take(top, looks).unwrap();
    first.kids.push_to(work);
    while let Some(handle) = work.pop() {
        let part = bank.take(handle, looks).unwrap();
        part.kids.push_to(work);
    }
    first.name
}

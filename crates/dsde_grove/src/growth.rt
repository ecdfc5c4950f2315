//! Steps that change the kids of one part.

ghost use Rattle.std.specs.Prelude.{◌≡◌, ◌+◌, ◌≤◌, ◌<◌, OnOk, OnErr, IsSome, IfSome, MatchOption};
ghost use Rattle.std.specs.FinMap as map;
ghost use Rattle.dsde_bank.specs.Bank.{found};
ghost use Rattle.dsde_grove.specs.Inside.{ChangesKids, HasKid};
ghost use Rattle.dsde_grove.specs.Part.{Puts, Forgets};

use crate::part::Part;
use dsde_bank::{Bank, Batch, Handle};
use dsde_base::Steps;
use dsde_lists::Memory;
use dsde_values::Name;
use std::sync::ledger::Ledger;

/// Makes room for one more part, for its place among the kids of its parent, and for all parts in
/// the work list. Until `link` the parent stands in that place. Counts at most one look.
pub fn make_room<T: Drop, L: Ledger>(
    bank: &mut Bank<Part<T>>,
    work: &mut Batch<Handle>,
    parent: Handle,
    name: Name,
    looks: &mut Steps<L>,
) -> Result<(), Memory>
    requires { IsSome (found bank.old parent) }
    ensures placed { OnOk result (ChangesKids bank.old bank.new parent (Puts record { name = name; handle = parent })) }
    ensures kept { OnErr result (ChangesKids bank.old bank.new parent (λ kids left. left ≡ kids)) }
    ensures room { OnOk result (0 < bank.new.spare) }
    ensures work_kept { work.new.items ≡ work.old.items }
    ensures work_not_less { work.old.spare ≤ work.new.spare }
    ensures work_room { OnOk result (map.len bank.old.held + 1 ≤ work.new.spare) }
    ensures ticks { looks.new ≤ looks.old + 1 }
{
    bank.reserve(1)?;
    let parts = bank.len().checked_add(1).ok_or(Memory)?;
    work.reserve(parts)?;
    let part = bank.get_mut(parent, looks).unwrap();
    part.kids.put(name, parent)
}

/// Puts a kid into the place that was made for it. Counts one look.
pub fn link<T: Drop, L: Ledger>(
    bank: &mut Bank<Part<T>>,
    parent: Handle,
    name: Name,
    kid: Handle,
    looks: &mut Steps<L>,
)
    requires { HasKid bank.old parent name }
    ensures linked { ChangesKids bank.old bank.new parent (Puts record { name = name; handle = kid }) }
    ensures ticks { looks.new ≡ looks.old + 1 }
{
    let part = bank.get_mut(parent, looks).unwrap();
    let Ok(()) = part.kids.put(name, kid) else {
        unreachable!()
    };
}

/// Takes the kid of this name out of the list of its parent, if it has one. Counts at most one look.
pub fn unlink<T: Drop, L: Ledger>(
    bank: &mut Bank<Part<T>>,
    parent: Option<Handle>,
    name: &Name,
    looks: &mut Steps<L>,
)
    requires { IfSome parent (λ above. IsSome (found bank.old above)) }
    ensures unlinked { MatchOption parent (bank.new ≡ bank.old) (λ above. ChangesKids bank.old bank.new above (Forgets name.now)) }
    ensures ticks { looks.new ≤ looks.old + 1 }
{
    if let Some(parent) = parent {
        let part = bank.get_mut(parent, looks).unwrap();
        part.kids.forget(name);
    }
}

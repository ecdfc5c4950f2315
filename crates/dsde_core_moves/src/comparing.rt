//! Which components survive, which entries are fresh, and who goes.

ghost use Rattle.std.specs.Prelude.{◌≡◌, ◌+◌, ◌*◌, ◌≤◌, length, map, IfOk, OnOk};
ghost use Rattle.std.specs.List.{AllByRecursion};
ghost use Rattle.dsde_routes_wiring.specs.given.structure.Survival.{fresh, IsInOrder};
ghost use Rattle.dsde_routes_wiring.specs.declared.wiring.WiredKid.TheViews.{out-Wiring};
ghost use Rattle.dsde_repair_walks.specs.Found.{name_of};
ghost use Rattle.dsde_core_moves.specs.Chosen.{lost};
ghost use Rattle.dsde_core_moves.specs.Compared.{entries_of, tests_of, IsHeld};

use crate::comparing_held::{is_first_entry, is_first_kid};
use crate::walking::{from_name, kids_from};
use dsde_base::Steps;
use dsde_core_flat::Spot;
use dsde_core_flat::given::grove::Grove;
use dsde_lists::Memory;
use dsde_routes_wiring::Wiring;
use dsde_routes_wiring::given::structure::Entry;
use dsde_values::{Name, Seq};
use std::alloc::Global;
use std::sync::ledger::Ledger;

/// For each component of a network, which stand in the order of their names, whether it survives a change to a
/// structure with these entries: one of them has its name and its model, and is soft or has its arguments (this
/// project's profile). Counts at most 2 looks a component. `Memory` where there is none.
pub fn survivors<L: Ledger>(
    alloc: Global,
    grove: &Grove<Spot>,
    wiring: &Wiring,
    entries: &Seq<Entry>,
    looks: &mut Steps<L>,
) -> Result<Seq<bool>, Memory>
    requires held { AllByRecursion (IsHeld grove.now) (out-Wiring wiring.now).kids }
    requires order { IsInOrder (entries_of grove.now (out-Wiring wiring.now).kids) }
    requires entries { IsInOrder entries.now }
    ensures tests { IfOk result (λ tests. tests ≡ tests_of grove.now entries.now (out-Wiring wiring.now).kids) }
    ensures ticks { looks.new ≤ looks.old + 2 * length (out-Wiring wiring.now).kids }
{
    let mut tests = Seq::new(alloc);
    let mut left = wiring.kids.as_slice();
    let mut rest = entries.as_slice();
    while let Some((kid, later)) = left.split_first() {
        rest = from_name(rest, &kid.name);
        tests.push(is_first_entry(grove, kid, rest, looks))?;
        left = later;
    }
    Ok(tests)
}

/// The entries of a structure as which no component of a network survives, which stand in the order of their
/// names: for each of them a component starts. Counts at most 2 looks an entry. `Memory` where
/// there is none.
pub fn fresh_entries<L: Ledger>(
    alloc: Global,
    grove: &Grove<Spot>,
    wiring: &Wiring,
    entries: Seq<Entry>,
    looks: &mut Steps<L>,
) -> Result<Seq<Entry>, Memory>
    requires held { AllByRecursion (IsHeld grove.now) (out-Wiring wiring.now).kids }
    requires order { IsInOrder (entries_of grove.now (out-Wiring wiring.now).kids) }
    requires entries { IsInOrder entries }
    ensures fresh { IfOk result (λ list. list ≡ fresh (entries_of grove.now (out-Wiring wiring.now).kids) entries) }
    ensures ticks { looks.new ≤ looks.old + 2 * length entries }
{
    let mut list = Seq::new(alloc);
    let mut left = wiring.kids.as_slice();
    for entry in entries.into_vec() {
        left = kids_from(left, &entry.name);
        if !is_first_kid(grove, left, &entry, looks) {
            list.push(entry)?;
        }
    }
    Ok(list)
}

/// The names of those components of a network that do not pass these tests. `Memory` where there is none.
pub fn names_lost(alloc: Global, wiring: &Wiring, keeps: &Seq<bool>) -> Result<Seq<Name>, Memory>
    requires { length keeps.now ≡ length (out-Wiring wiring.now).kids }
    ensures { IfOk result (λ names. names ≡ map name_of (lost keeps.now (out-Wiring wiring.now).kids)) }
{
    let mut names = Seq::new(alloc);
    let mut left = wiring.kids.as_slice();
    let mut tests = keeps.as_slice();
    while let (Some((kid, later)), Some((stays, others))) = (
        left.split_first(),
        tests.split_first(),
    ) {
        if !*stays {
            names.push(kid.name.copy(alloc)?)?;
        }
        left = later;
        tests = others;
    }
    Ok(names)
}

//! Which components survive where one structure follows another.

ghost use Rattle.std.specs.Prelude.{◌≡◌, IfOk, OnOk};
ghost use Rattle.dsde_structure.specs.Survival.{survives, met, compared, joined, IsInOrder};

use crate::{Change, Entry, Plan};
use dsde_values::given::lists::Memory;
use dsde_values::{Seq, compare_names};
use dsde_values_equality::are_same;
use std::alloc::Global;
use std::cmp::Ordering;

/// Whether an entry of an old structure survives as an entry of a new one: it has its name and its
/// model, and the new one is soft or has equal arguments. Whether the old one is soft plays no part.
pub fn survives(old: &Entry, new: &Entry) -> bool
    ensures { result ≡ survives old.now new.now }
{
    old.name == new.name
        && old.model.0 == new.model.0
        && (new.soft || are_same(old.args.as_slice(), new.args.as_slice()))
}

/// Who is dropped, who survives and what starts where one structure follows another. A survivor keeps
/// its arguments, so an old plan has those that its components have, and not those of the structure
/// from which they came.
pub fn compare_plans(alloc: Global, old: &Plan, new: &Plan) -> Result<Change, Memory>
    requires old { IsInOrder old.now.entries }
    requires new { IsInOrder new.now.entries }
    ensures { IfOk result (λ change. change ≡ compared old.now.entries new.now.entries) }
{
    let mut change = Change {
        gone: Seq::new(alloc),
        kept: Seq::new(alloc),
        fresh: Seq::new(alloc),
    };
    let mut olds = old.entries.as_slice();
    let mut news = new.entries.as_slice();
    loop {
        match (olds.split_first(), news.split_first()) {
            (None, None) => return Ok(change),
            (Some((old, later)), None) => {
                change.gone.push(old.name.copy(alloc)?)?;
                olds = later;
            }
            (None, Some((new, rest))) => {
                change.fresh.push(new.copy(alloc)?)?;
                news = rest;
            }
            (Some((old, later)), Some((new, rest))) => match compare_names(&old.name, &new.name) {
                Ordering::Less => {
                    change.gone.push(old.name.copy(alloc)?)?;
                    olds = later;
                }
                Ordering::Greater => {
                    change.fresh.push(new.copy(alloc)?)?;
                    news = rest;
                }
                Ordering::Equal => {
                    meet(alloc, old, new, &mut change)?;
                    olds = later;
                    news = rest;
                }
            },
        }
    }
}

/// An old entry and a new one of its name: the old one survives, or the new one takes its place.
fn meet(alloc: Global, old: &Entry, new: &Entry, change: &mut Change) -> Result<(), Memory>
    ensures { OnOk result (change.new ≡ joined change.old (met old.now new.now)) }
{
    let name = old.name.copy(alloc)?;
    if survives(old, new) {
        change.kept.push(name)?;
    } else {
        change.gone.push(name)?;
        change.fresh.push(new.copy(alloc)?)?;
    }
    Ok(())
}

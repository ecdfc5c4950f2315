//! The models of the components of a structure, by their identifiers.

ghost use Rattle.std.specs.Prelude.{◌≡◌, [], map, IfOk, OnOk};
ghost use Rattle.dsde_language.specs.RuleTables.{added, family_name};
ghost use Rattle.dsde_language.specs.DeclaredStructures.{kin_all, kin_of};
ghost use Rattle.dsde_language.specs.DeclaredModels.{model_number};
ghost use Rattle.dsde_program_structures.specs.Parts.{kin_arm};

use dsde_language::given::names::Names;
use dsde_lists::{Boxed, Memory};
use dsde_program_expressions::given::check_tables::{FamilyEntry, Known};
use dsde_program_expressions::given::program_slots::model_number;
use dsde_syntax::{Id, Item, ItemArm};
use std::alloc::Global;

/// Adds the identifier of a component with the number of its model, unless it is there.
fn enter_comp<'m>(
    known: &Known<'_>,
    name: &'m Id,
    model: &Id,
    families: &mut Names<FamilyEntry<'m>>,
) -> Result<(), Memory>
    ensures { OnOk result (families.new ≡ added family_name families.old (record { name = name.now.name; model = model_number known.now model.now.name })) }
{
    let number = model_number(known, model.name.as_slice())?;
    families.insert(FamilyEntry::new(name.name.as_slice(), number))?;
    Ok(())
}

/// Adds the components that an item makes, itself or in its braces.
#[cycle(entering)]
fn enter<'m>(
    known: &Known<'_>,
    item: &'m Item,
    families: &mut Names<FamilyEntry<'m>>,
) -> Result<(), Memory>
    ensures { OnOk result (families.new ≡ kin_of known.now item.now families.old) }
{
    match item {
        Item::Comp { name, model, .. } => enter_comp(known, name, model, families),
        Item::Link { .. } => Ok(()),
        Item::Let { .. } => Ok(()),
        Item::If { arms, other } => {
            enter_arms(known, arms.as_slice(), families)?;
            match other {
                Some(items) => enter_all(known, items.as_slice(), families),
                None => Ok(()),
            }
        }
        Item::For { body, .. } => enter_all(known, body.as_slice(), families),
    }
}

/// Adds the components among these items and in them, in text order.
#[cycle(entering)]
fn enter_all<'m>(
    known: &Known<'_>,
    items: &'m [Item],
    families: &mut Names<FamilyEntry<'m>>,
) -> Result<(), Memory>
    ensures { OnOk result (families.new ≡ kin_all (map (kin_of known.now) items.now) families.old) }
{
    for item in items {
        enter(known, item, families)?;
    }
    Ok(())
}

/// Adds the components in the arms of a choice, in text order.
#[cycle(entering)]
fn enter_arms<'m>(
    known: &Known<'_>,
    arms: &'m [ItemArm],
    families: &mut Names<FamilyEntry<'m>>,
) -> Result<(), Memory>
    ensures { OnOk result (families.new ≡ kin_all (map (kin_arm known.now) arms.now) families.old) }
{
    for arm in arms {
        enter_all(known, arm.body.as_slice(), families)?;
    }
    Ok(())
}

/// The models of the components of a structure.
pub(crate) fn families<'m>(
    alloc: Global,
    known: &Known<'_>,
    items: &'m [Item],
) -> Result<Boxed<Names<FamilyEntry<'m>>>, Memory>
    ensures { IfOk result (λ families. families ≡ kin_all (map (kin_of known.now) items.now) []) }
{
    let mut families = Names::new(alloc);
    enter_all(known, items, &mut families)?;
    Ok(Boxed::new(alloc, families)?)
}

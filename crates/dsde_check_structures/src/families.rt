//! The models of the components of a structure, found before its items are looked at.

ghost use Rattle.std.specs.Prelude.{◌==◌, map, not};
ghost use Rattle.dsde_language.specs.declared.wrong.WrongKind.TheVariants.{MixedFamily};
ghost use Rattle.dsde_language.specs.Steps.{unless};
ghost use Rattle.dsde_language.specs.RuleStructures.{with_comp, comp_family, enter, enter_all};
ghost use Rattle.dsde_check_expressions.specs.given.check_scope.Says.{Leaves, Says};
ghost use Rattle.dsde_check_structures.specs.Parts.{enter_arm};

use dsde_check_expressions::given::check_scope::{CheckError, narrow};
use dsde_check_expressions::given::check_tables::{FamilyEntry, Known};
use dsde_language::WrongKind;
use dsde_names::Names;
use dsde_syntax::{Id, Item, ItemArm};

/// Components of one identifier have one model: `MixedFamily` at the `comp` of another.
fn one_model(family: &FamilyEntry<'_>, at: u32, model: u32) -> Result<(), CheckError>
    ensures { Says (unless (not (family.now.model == model)) MixedFamily at) result }
{
    if family.model() != model {
        return Err(CheckError::Wrong(WrongKind::MixedFamily, at));
    }
    Ok(())
}

/// The identifier of a component, with the number of its model.
fn with_comp<'m>(
    families: &mut Names<FamilyEntry<'m>>,
    at: u32,
    name: &'m Id,
    model: u32,
) -> Result<(), CheckError>
    ensures { Leaves (with_comp families.old at name.now model) result families.new }
{
    if let Some(family) = families.get(name.name.as_slice()) {
        return one_model(family, at, model);
    }
    families.push(FamilyEntry::new(name.name.as_slice(), model))?;
    Ok(())
}

/// A `comp`, whose model is one of the file, else `Unknown` at the model.
fn comp_family<'m>(
    known: &Known<'m>,
    at: u32,
    name: &'m Id,
    model: &Id,
    families: &mut Names<FamilyEntry<'m>>,
) -> Result<(), CheckError>
    ensures { Leaves (comp_family known.now at name.now model.now families.old) result families.new }
{
    let Some(number) = known.models().number_of(model.name.as_slice()) else {
        return Err(CheckError::Wrong(WrongKind::Unknown, model.at));
    };
    let number = narrow(number)?;
    with_comp(families, at, name, number)
}

/// The models of the components that an item makes, itself or in its braces.
#[cycle(entering)]
fn enter<'m>(
    known: &Known<'m>,
    item: &'m Item,
    families: &mut Names<FamilyEntry<'m>>,
) -> Result<(), CheckError>
    ensures { Leaves (enter known.now item.now families.old) result families.new }
{
    match item {
        Item::Comp {
            at,
            name,
            model,
            ..
        } => comp_family(known, *at, name, model, families),
        Item::Link { .. } => Ok(()),
        Item::Let { .. } => Ok(()),
        Item::If { arms, other } => {
            enter_arms(known, arms.as_slice(), families)?;
            match other {
                Some(body) => enter_all(known, body.as_slice(), families),
                None => Ok(()),
            }
        }
        Item::For { body, .. } => enter_all(known, body.as_slice(), families),
    }
}

/// The models of the components among these items and in them, in text order.
#[cycle(entering)]
pub(crate) fn enter_all<'m>(
    known: &Known<'m>,
    items: &'m [Item],
    families: &mut Names<FamilyEntry<'m>>,
) -> Result<(), CheckError>
    ensures { Leaves (enter_all (map (enter known.now) items.now) families.old) result families.new }
{
    for item in items {
        enter(known, item, families)?;
    }
    Ok(())
}

/// The models of the components in the arms of a choice, in text order.
#[cycle(entering)]
fn enter_arms<'m>(
    known: &Known<'m>,
    arms: &'m [ItemArm],
    families: &mut Names<FamilyEntry<'m>>,
) -> Result<(), CheckError>
    ensures { Leaves (enter_all (map (enter_arm known.now) arms.now) families.old) result families.new }
{
    for arm in arms {
        enter_all(known, arm.body.as_slice(), families)?;
    }
    Ok(())
}

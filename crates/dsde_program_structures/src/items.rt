//! The items of a structure.

ghost use Rattle.std.specs.Prelude.{◌≡◌, length, take, IfOk, OnOk};
ghost use Rattle.dsde_program_expressions.specs.given.program_layout.LayPieces.{inside};
ghost use Rattle.dsde_program_expressions.specs.given.program_layout.LayItems.{lay_item, lay_items};
ghost use Rattle.dsde_program_structures.specs.Parts.{lay_arm, lay_arms, lay_for, lay_head, lay_let};

use crate::arguments::{laid, number};
use crate::components::comp;
use crate::links::link;
use crate::place::Place;
use dsde_language::given::names::Names;
use dsde_language::{ExprId, Make, MakeArm, Tables};
use dsde_lists::Memory;
use dsde_program_expressions::Laid;
use dsde_program_expressions::given::check_tables::Member;
use dsde_program_expressions::given::program_slots::{bind, item_in};
use dsde_syntax::{Expr, Id, Item, ItemArm};
use dsde_values::Seq;

/// Lays `let`, whose name is seen behind its value.
fn let_of<'m>(
    place: &Place<'_, 'm>,
    name: &'m Id,
    value: &'m Expr,
    scope: &mut Names<Member<'m>>,
    tables: &mut Tables,
) -> Result<Make, Memory>
    ensures own { IfOk result (λ own. own ≡ (lay_let place.now name.now value.now scope.old tables.old).own) }
    ensures tables { OnOk result (tables.new ≡ (lay_let place.now name.now value.now scope.old tables.old).tables) }
    ensures seen { OnOk result (scope.new ≡ (lay_let place.now name.now value.now scope.old tables.old).scope) }
    ensures kept { OnOk result (take (length scope.old) scope.new ≡ scope.old) }
{
    let Laid { number, ty } = laid(place.resolver(), value, scope, tables)?;
    bind(scope, name.name.as_slice(), ty)?;
    Ok(Make::Let(number))
}

/// Lays the list of a `for`, whose name is seen behind it.
fn head<'m>(
    place: &Place<'_, 'm>,
    name: &'m Id,
    list: &'m Expr,
    scope: &mut Names<Member<'m>>,
    tables: &mut Tables,
) -> Result<ExprId, Memory>
    ensures own { IfOk result (λ own. own ≡ (lay_head place.now name.now list.now scope.old tables.old).own) }
    ensures tables { OnOk result (tables.new ≡ (lay_head place.now name.now list.now scope.old tables.old).tables) }
    ensures seen { OnOk result (scope.new ≡ (lay_head place.now name.now list.now scope.old tables.old).scope) }
    ensures kept { OnOk result (take (length scope.old) scope.new ≡ scope.old) }
{
    let Laid { number, ty } = laid(place.resolver(), list, scope, tables)?;
    bind(scope, name.name.as_slice(), item_in(ty))?;
    Ok(number)
}

/// Lays an item.
#[cycle(resolving)]
fn item<'m>(
    place: &Place<'_, 'm>,
    item: &'m Item,
    scope: &mut Names<Member<'m>>,
    tables: &mut Tables,
) -> Result<Make, Memory>
    ensures own { IfOk result (λ own. own ≡ (lay_item place.now item.now scope.old tables.old).own) }
    ensures tables { OnOk result (tables.new ≡ (lay_item place.now item.now scope.old tables.old).tables) }
    ensures seen { OnOk result (scope.new ≡ (lay_item place.now item.now scope.old tables.old).scope) }
    ensures kept { OnOk result (take (length scope.old) scope.new ≡ scope.old) }
{
    match item {
        Item::Comp {
            at,
            name,
            index,
            soft,
            model,
            args,
        } => comp(
            place.resolver(),
            *at,
            name,
            index,
            *soft,
            model,
            args.as_slice(),
            scope,
            tables,
        ),
        Item::Link { at, from, to, via } => link(place, *at, from, to, via, scope, tables),
        Item::Let { name, value } => let_of(place, name, value, scope, tables),
        Item::If { arms: own, other } => {
            let own = arms(place, own.as_slice(), scope, tables)?;
            match other {
                Some(items) => {
                    let last = inside(place, items.as_slice(), scope, tables)?;
                    Ok(Make::If(own, Some(last)))
                }
                None => Ok(Make::If(own, None)),
            }
        }
        Item::For { name, list, body } => for_of(place, body.as_slice(), name, list, scope, tables),
    }
}

/// Lays `for`, whose name is seen in its braces alone.
#[cycle(resolving)]
fn for_of<'m>(
    place: &Place<'_, 'm>,
    body: &'m [Item],
    name: &'m Id,
    list: &'m Expr,
    scope: &mut Names<Member<'m>>,
    tables: &mut Tables,
) -> Result<Make, Memory>
    ensures own { IfOk result (λ own. own ≡ (lay_for place.now name.now list.now body.now scope.old tables.old).own) }
    ensures tables { OnOk result (tables.new ≡ (lay_for place.now name.now list.now body.now scope.old tables.old).tables) }
    ensures kept { OnOk result (scope.new ≡ scope.old) }
{
    let depth = scope.len();
    let own = head(place, name, list, scope, tables)?;
    let makes = items(place, body, scope, tables)?;
    scope.truncate(depth);
    Ok(Make::For(own, makes))
}

/// Lays items in text order, each over the names that the one before left.
#[cycle(resolving)]
pub(crate) fn items<'m>(
    place: &Place<'_, 'm>,
    items: &'m [Item],
    scope: &mut Names<Member<'m>>,
    tables: &mut Tables,
) -> Result<Seq<Make>, Memory>
    ensures own { IfOk result (λ own. own ≡ (lay_items place.now items.now scope.old tables.old).own) }
    ensures tables { OnOk result (tables.new ≡ (lay_items place.now items.now scope.old tables.old).tables) }
    ensures seen { OnOk result (scope.new ≡ (lay_items place.now items.now scope.old tables.old).scope) }
    ensures kept { OnOk result (take (length scope.old) scope.new ≡ scope.old) }
{
    let mut makes = Seq::new(place.resolver().alloc());
    for own in items {
        makes.push(item(place, own, scope, tables)?)?;
    }
    Ok(makes)
}

/// Lays items in braces, whose names are seen in them alone.
#[cycle(resolving)]
fn inside<'m>(
    place: &Place<'_, 'm>,
    own: &'m [Item],
    scope: &mut Names<Member<'m>>,
    tables: &mut Tables,
) -> Result<Seq<Make>, Memory>
    ensures own { IfOk result (λ makes. makes ≡ (inside (lay_items place.now own.now) scope.old tables.old).own) }
    ensures tables { OnOk result (tables.new ≡ (inside (lay_items place.now own.now) scope.old tables.old).tables) }
    ensures kept { OnOk result (scope.new ≡ scope.old) }
{
    let depth = scope.len();
    let makes = items(place, own, scope, tables)?;
    scope.truncate(depth);
    Ok(makes)
}

/// Lays an arm of a choice.
#[cycle(resolving)]
fn arm<'m>(
    place: &Place<'_, 'm>,
    arm: &'m ItemArm,
    scope: &mut Names<Member<'m>>,
    tables: &mut Tables,
) -> Result<MakeArm, Memory>
    ensures own { IfOk result (λ own. own ≡ (lay_arm place.now arm.now scope.old tables.old).own) }
    ensures tables { OnOk result (tables.new ≡ (lay_arm place.now arm.now scope.old tables.old).tables) }
    ensures seen { OnOk result (scope.new ≡ (lay_arm place.now arm.now scope.old tables.old).scope) }
    ensures kept { OnOk result (scope.new ≡ scope.old) }
{
    let cond = number(place.resolver(), &arm.cond, scope, tables)?;
    let makes = inside(place, arm.body.as_slice(), scope, tables)?;
    Ok(MakeArm { cond, makes })
}

/// Lays the arms of a choice, in text order.
#[cycle(resolving)]
fn arms<'m>(
    place: &Place<'_, 'm>,
    arms: &'m [ItemArm],
    scope: &mut Names<Member<'m>>,
    tables: &mut Tables,
) -> Result<Seq<MakeArm>, Memory>
    ensures own { IfOk result (λ own. own ≡ (lay_arms place.now arms.now scope.old tables.old).own) }
    ensures tables { OnOk result (tables.new ≡ (lay_arms place.now arms.now scope.old tables.old).tables) }
    ensures seen { OnOk result (scope.new ≡ (lay_arms place.now arms.now scope.old tables.old).scope) }
    ensures kept { OnOk result (scope.new ≡ scope.old) }
{
    let mut found = Seq::new(place.resolver().alloc());
    for own in arms {
        found.push(arm(place, own, scope, tables)?)?;
    }
    Ok(found)
}

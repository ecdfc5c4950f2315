//! The items of a structure.

ghost use Rattle.std.specs.Prelude.{◌≡◌, false, length, map, take, OnOk};
ghost use Rattle.dsde_names.specs.Table.{is_among};
ghost use Rattle.dsde_language.specs.RuleTables.{binding_name};
ghost use Rattle.dsde_language.specs.Judge.{fresh, judge};
ghost use Rattle.dsde_language.specs.Blocks.{arms_walk, inner, let_of, walk_all};
ghost use Rattle.dsde_language.specs.RuleStructures.{item_walk};
ghost use Rattle.dsde_check_expressions.specs.given.check_scope.Says.{Says, Walks};
ghost use Rattle.dsde_check_structures.specs.Parts.{arm_test, for_by, for_head, item_arm_walk, item_bound};

use crate::components::comp;
use crate::links::link;
use crate::site::Site;
use dsde_check_expressions::given::check_scope::{CheckError, above, bind, close, item_type};
use dsde_check_expressions::given::check_tables::Local;
use dsde_check_expressions::{judge, test};
use dsde_language::{BindingKind, Seen};
use dsde_names::Names;
use dsde_syntax::{Expr, Id, Item, ItemArm};
use std::alloc::Global;

/// The height of `let`, whose name is bound behind its value.
fn let_of<'m>(
    site: &Site<'_, 'm>,
    name: &'m Id,
    value: &'m Expr,
    scope: &mut Names<Local<'m>>,
) -> Result<u32, CheckError>
    ensures walks { Walks (let_of site.now.around false name.now (judge site.now.around value.now) scope.old) result scope.new }
    ensures grows { OnOk result (take (length scope.old) scope.new ≡ scope.old) }
{
    fresh(site, name, scope)?;
    let seen = seen_at(site, value, scope)?;
    let height = above(seen.height);
    bind(scope, name, seen.ty, BindingKind::Fixed)?;
    Ok(height)
}

/// A name that is bound differs from those of the body and from those in scope.
fn fresh(site: &Site<'_, '_>, name: &Id, scope: &Names<Local<'_>>) -> Result<(), CheckError>
    ensures says { Says (fresh site.now.around name.now scope.now) result }
    ensures free { OnOk result (is_among binding_name scope.now name.now.name ≡ false) }
{
    site.around().fresh(name, scope)
}

/// What is seen of an expression of the structure.
fn seen_at<'m>(
    site: &Site<'_, 'm>,
    expr: &'m Expr,
    scope: &mut Names<Local<'m>>,
) -> Result<Seen, CheckError>
    ensures says { Says (judge site.now.around expr.now scope.old) result }
    ensures keeps { OnOk result (scope.new ≡ scope.old) }
{
    judge(site.around(), expr, scope)
}

/// The condition of an arm, on what came before it of this height.
#[tactic(auto, unfolding(crate::specs::Parts::arm_test))]
fn arm_test<'m>(
    site: &Site<'_, 'm>,
    cond: &'m Expr,
    height: u32,
    scope: &mut Names<Local<'m>>,
) -> Result<u32, CheckError>
    ensures says { Says (arm_test site.now cond.now height scope.old) result }
    ensures keeps { OnOk result (scope.new ≡ scope.old) }
{
    test(site.around(), cond, height, scope)
}

/// Binds the name of `for`, and gives the height of its list.
#[tactic(auto, unfolding(crate::specs::Parts::for_head))]
fn for_head<'m>(
    site: &Site<'_, 'm>,
    name: &'m Id,
    list: &'m Expr,
    scope: &mut Names<Local<'m>>,
) -> Result<u32, CheckError>
    ensures walks { Walks (for_head site.now name.now list.now scope.old) result scope.new }
    ensures grows { OnOk result (take (length scope.old) scope.new ≡ scope.old) }
{
    fresh(site, name, scope)?;
    let items = seen_at(site, list, scope)?;
    bind_item(site.alloc(), name, &items, scope)
}

/// Binds the name of `for` over these items, which are a list, and gives their height.
fn bind_item<'m>(
    alloc: Global,
    name: &'m Id,
    items: &Seen,
    scope: &mut Names<Local<'m>>,
) -> Result<u32, CheckError>
    requires { is_among binding_name scope.old name.now.name ≡ false }
    ensures walks { Walks (item_bound name.now items.now scope.old) result scope.new }
    ensures grows { OnOk result (take (length scope.old) scope.new ≡ scope.old) }
{
    let item = item_type(alloc, items)?;
    bind(scope, name, item, BindingKind::Fixed)?;
    Ok(items.height)
}

/// The height of an item. The scope is left as the item leaves it.
#[cycle(walking)]
fn item<'m>(
    site: &Site<'_, 'm>,
    item: &'m Item,
    scope: &mut Names<Local<'m>>,
) -> Result<u32, CheckError>
    ensures walks { Walks (item_walk site.now item.now scope.old) result scope.new }
    ensures grows { OnOk result (take (length scope.old) scope.new ≡ scope.old) }
{
    match item {
        Item::Comp {
            index,
            model,
            args,
            ..
        } => comp(site.around(), index, model, args.as_slice(), scope),
        Item::Link { at, from, to, via } => link(site, *at, from, to, via, scope),
        Item::Let { name, value } => let_of(site, name, value, scope),
        Item::If { arms, other } => {
            let height = arms_walk(site, arms.as_slice(), scope)?;
            let Some(body) = other else {
                return Ok(above(height));
            };
            let last = inner(site, body.as_slice(), height, scope)?;
            Ok(above(last))
        }
        Item::For { name, list, body } => for_of(site, body.as_slice(), name, list, scope),
    }
}

/// The height of `for`, whose name is seen in its braces.
#[cycle(walking)]
fn for_of<'m>(
    site: &Site<'_, 'm>,
    body: &'m [Item],
    name: &'m Id,
    list: &'m Expr,
    scope: &mut Names<Local<'m>>,
) -> Result<u32, CheckError>
    ensures walks { Walks (for_by site.now name.now list.now (map (item_walk site.now) body.now) scope.old) result scope.new }
    ensures keeps { OnOk result (scope.new ≡ scope.old) }
{
    let depth = scope.len();
    let start = for_head(site, name, list, scope)?;
    let height = inner(site, body, start, scope)?;
    close(scope, depth);
    Ok(above(height))
}

/// The height of items in braces, whose names are seen in them alone.
#[cycle(walking)]
pub(crate) fn inner<'m>(
    site: &Site<'_, 'm>,
    items: &'m [Item],
    start: u32,
    scope: &mut Names<Local<'m>>,
) -> Result<u32, CheckError>
    ensures says { Says (inner (map (item_walk site.now) items.now) start scope.old) result }
    ensures keeps { OnOk result (scope.new ≡ scope.old) }
{
    let depth = scope.len();
    let height = walk_all(site, items, start, scope)?;
    close(scope, depth);
    Ok(height)
}

/// The height of the highest of items in text order, each in the scope that the one before left.
#[cycle(walking)]
fn walk_all<'m>(
    site: &Site<'_, 'm>,
    items: &'m [Item],
    start: u32,
    scope: &mut Names<Local<'m>>,
) -> Result<u32, CheckError>
    ensures walks { Walks (walk_all (map (item_walk site.now) items.now) start scope.old) result scope.new }
    ensures grows { OnOk result (take (length scope.old) scope.new ≡ scope.old) }
{
    let mut height = start;
    for own in items {
        height = height.max(item(site, own, scope)?);
    }
    Ok(height)
}

/// The greatest height of the arms of a choice.
#[cycle(walking)]
fn arms_walk<'m>(
    site: &Site<'_, 'm>,
    arms: &'m [ItemArm],
    scope: &mut Names<Local<'m>>,
) -> Result<u32, CheckError>
    ensures says { Says (arms_walk (map (item_arm_walk site.now) arms.now) 0 scope.old) result }
    ensures keeps { OnOk result (scope.new ≡ scope.old) }
{
    let mut height = 0u32;
    for arm in arms {
        height = arm_walk(site, arm, height, scope)?;
    }
    Ok(height)
}

/// The height of an arm of a choice, on what came before it of this height.
#[cycle(walking)]
fn arm_walk<'m>(
    site: &Site<'_, 'm>,
    arm: &'m ItemArm,
    height: u32,
    scope: &mut Names<Local<'m>>,
) -> Result<u32, CheckError>
    ensures says { Says (item_arm_walk site.now arm.now height scope.old) result }
    ensures keeps { OnOk result (scope.new ≡ scope.old) }
{
    let tested = arm_test(site, &arm.cond, height, scope)?;
    inner(site, arm.body.as_slice(), tested, scope)
}

//! Expressions, and lists of them.

ghost use Rattle.std.specs.Prelude.{◌≡◌, map, length, Some, OnOk};
ghost use Rattle.std.specs.Option.{option_map};
ghost use Rattle.dsde_values.specs.declared.types.Ty.TheVariants as own;
ghost use Rattle.dsde_language.specs.Judge.{judge, chain, links_from, guarded, test_of, fit, fit_all, all_of, list_of, call_to, builtin_of, row_of, fit_parts, new_of, record_at, record_of, fill, each_of, if_of, arms_of};
ghost use Rattle.dsde_check_scope.specs.Says.{Says};
ghost use Rattle.dsde_check_expressions.specs.Parts.{judge_tail, judge_sign_tail, judge_suffix, judge_arm, judge_set, or_else_of, not_of, compare_of, neg_of, fit_one, fit_part, fit_arm};

use crate::builtins::{builtin_seen, part_fitted};
use crate::declared::{field_seen, variant_of, whole_record};
use crate::steps::{
    call_seen, compared, compared_seen, elapsed, empty_of, held, item_of, item_seen, list_seen,
    made_list, name_of, negated, negative, none_of, operand, other_seen, sign_seen, truth,
    unwrapped,
};
use dsde_check_scope::given::check_tables::{Local, Member, row_of};
use dsde_check_scope::{Around, CheckError, bind, close, narrow, seen_as, wanted};
use dsde_language::{BindingKind, Fitted, Part, Seen, WrongKind};
use dsde_names::{Entry, Names};
use dsde_syntax::{Boxed, Expr, ExprArm, FieldSet, Id, Key, Sign, SignTail, Suffix, Tail};
use dsde_values::Ty;

/// What is seen of an expression in a scope, or the first wrong thing in it. The scope is as it was
/// where nothing is wrong.
#[cycle(judging)]
pub fn judge<'m>(
    around: &Around<'m>,
    expr: &'m Expr,
    scope: &mut Names<Local<'m>>,
) -> Result<Seen, CheckError>
    ensures says { Says (judge around.now expr.now scope.old) result }
    ensures keeps { OnOk result (scope.new ≡ scope.old) }
{
    match expr {
        Expr::OrElse { at, left, right } => or_else(around, *at, left.get(), right.get(), scope),
        Expr::Or { first, rest } => chain(around, first.get(), rest.as_slice(), scope),
        Expr::And { first, rest } => chain(around, first.get(), rest.as_slice(), scope),
        Expr::Not { at, of } => not_of(around, *at, of.get(), scope),
        Expr::Compare {
            sign,
            at,
            left,
            right,
        } => compare(around, *sign, *at, left.get(), right.get(), scope),
        Expr::Sum { first, rest } => sign_chain(around, first.get(), rest.as_slice(), scope),
        Expr::Mul { first, rest } => sign_chain(around, first.get(), rest.as_slice(), scope),
        Expr::Neg { at, of } => neg_of(around, *at, of.get(), scope),
        Expr::Post {
            first,
            suffixes: rest,
        } => suffix_chain(around, first.get(), rest.as_slice(), scope),
        Expr::Number { at, .. } => Ok(seen_as(Ty::Int, 0, *at)),
        Expr::Truth { at, .. } => Ok(seen_as(Ty::Bool, 0, *at)),
        Expr::Elapsed(at) => elapsed(around, *at),
        Expr::Name(id) => name_of(around, id, scope),
        Expr::Call { name, args } => call_to(around, name, args.as_slice(), scope),
        Expr::Variant { of, variant } => variant_of(around.known(), of, variant),
        Expr::New { at, of, fields } => new_of(around, *at, of, fields.as_slice(), scope),
        Expr::NoneOf { at, ty } => none_of(around, *at, ty),
        Expr::EmptyOf { at, ty } => empty_of(around, *at, ty),
        Expr::Builtin { which, at, args } => {
            builtin_of(around, *which, *at, args.as_slice(), scope)
        }
        Expr::Paren { inner, .. } => judge(around, inner.get(), scope),
        Expr::List { at, items } => list_of(around, *at, items.as_slice(), scope),
        Expr::Each {
            at,
            name,
            list,
            cond,
            value,
        } => each_of(around, *at, name, cond, list.get(), value.get(), scope),
        Expr::If { at, arms, other } => if_of(around, *at, arms.as_slice(), other.get(), scope),
    }
}

/// `left ?? right`: an option, and a value of the type that it holds.
#[cycle(judging)]
fn or_else<'m>(
    around: &Around<'m>,
    at: u32,
    left: &'m Expr,
    right: &'m Expr,
    scope: &mut Names<Local<'m>>,
) -> Result<Seen, CheckError>
    ensures says { Says (or_else_of at (judge around.now left.now) (judge around.now right.now) scope.old) result }
    ensures keeps { OnOk result (scope.new ≡ scope.old) }
{
    let option = judge(around, left, scope)?;
    let height = option.height;
    let inner = held(around.alloc(), option)?;
    let other = judge(around, right, scope)?;
    other_seen(inner, height, other, at)
}

/// `not of`
#[cycle(judging)]
fn not_of<'m>(
    around: &Around<'m>,
    at: u32,
    of: &'m Expr,
    scope: &mut Names<Local<'m>>,
) -> Result<Seen, CheckError>
    ensures says { Says (not_of at (judge around.now of.now) scope.old) result }
    ensures keeps { OnOk result (scope.new ≡ scope.old) }
{
    let seen = judge(around, of, scope)?;
    negated(seen, at)
}

/// `-of`
#[cycle(judging)]
fn neg_of<'m>(
    around: &Around<'m>,
    at: u32,
    of: &'m Expr,
    scope: &mut Names<Local<'m>>,
) -> Result<Seen, CheckError>
    ensures says { Says (neg_of around.now at (judge around.now of.now) scope.old) result }
    ensures keeps { OnOk result (scope.new ≡ scope.old) }
{
    let seen = judge(around, of, scope)?;
    negative(around, at, seen)
}

/// A comparison: both sides are of the type that its sign takes.
#[cycle(judging)]
fn compare<'m>(
    around: &Around<'m>,
    sign: Sign,
    at: u32,
    left: &'m Expr,
    right: &'m Expr,
    scope: &mut Names<Local<'m>>,
) -> Result<Seen, CheckError>
    ensures says { Says (compare_of sign at (judge around.now left.now) (judge around.now right.now) scope.old) result }
    ensures keeps { OnOk result (scope.new ≡ scope.old) }
{
    let one = judge(around, left, scope)?;
    let height = one.height;
    let own = compared(sign, one)?;
    let other = judge(around, right, scope)?;
    compared_seen(own, height, other, at)
}

/// A chain of `or` or of `and`.
#[cycle(judging)]
fn chain<'m>(
    around: &Around<'m>,
    first: &'m Expr,
    rest: &'m [Tail],
    scope: &mut Names<Local<'m>>,
) -> Result<Seen, CheckError>
    ensures says { Says (chain (judge around.now first.now) (map (judge_tail around.now) rest.now) scope.old) result }
    ensures keeps { OnOk result (scope.new ≡ scope.old) }
{
    let left = judge(around, first, scope)?;
    tails(around, rest, left, scope)
}

/// A chain of signs and their values.
#[cycle(judging)]
fn sign_chain<'m>(
    around: &Around<'m>,
    first: &'m Expr,
    rest: &'m [SignTail],
    scope: &mut Names<Local<'m>>,
) -> Result<Seen, CheckError>
    ensures says { Says (chain (judge around.now first.now) (map (judge_sign_tail around.now) rest.now) scope.old) result }
    ensures keeps { OnOk result (scope.new ≡ scope.old) }
{
    let left = judge(around, first, scope)?;
    sign_tails(around, rest, left, scope)
}

/// A chain of suffixes.
#[cycle(judging)]
fn suffix_chain<'m>(
    around: &Around<'m>,
    first: &'m Expr,
    rest: &'m [Suffix],
    scope: &mut Names<Local<'m>>,
) -> Result<Seen, CheckError>
    ensures says { Says (chain (judge around.now first.now) (map (judge_suffix around.now) rest.now) scope.old) result }
    ensures keeps { OnOk result (scope.new ≡ scope.old) }
{
    let left = judge(around, first, scope)?;
    suffixes(around, rest, left, scope)
}

/// `[for name in list if cond: value]`: the name is that of an item of the list, in the condition and
/// the value alone.
#[cycle(judging)]
fn each_of<'m>(
    around: &Around<'m>,
    at: u32,
    name: &'m Id,
    cond: &'m Option<Boxed<Expr>>,
    list: &'m Expr,
    value: &'m Expr,
    scope: &mut Names<Local<'m>>,
) -> Result<Seen, CheckError>
    ensures says { Says (each_of around.now at name.now (judge around.now list.now) (option_map (judge around.now) cond.now) (judge around.now value.now) scope.old) result }
    ensures keeps { OnOk result (scope.new ≡ scope.old) }
{
    around.fresh(name, scope)?;
    let items = judge(around, list, scope)?;
    let height = items.height;
    let item = item_of(around.alloc(), items)?;
    let depth = scope.len();
    bind(scope, name, item, BindingKind::Fixed)?;
    let seen = guarded(around, cond, value, height, scope)?;
    close(scope, depth);
    made_list(around, seen.ty, seen.height, at)
}

/// A value behind a condition that need not be there: as high as the higher of them, and as what came
/// before them.
#[cycle(judging)]
fn guarded<'m>(
    around: &Around<'m>,
    cond: &'m Option<Boxed<Expr>>,
    value: &'m Expr,
    height: u32,
    scope: &mut Names<Local<'m>>,
) -> Result<Seen, CheckError>
    ensures says { Says (guarded (option_map (judge around.now) cond.now) (judge around.now value.now) height scope.old) result }
    ensures keeps { OnOk result (scope.new ≡ scope.old) }
{
    let tested = test_if(around, cond, height, scope)?;
    let seen = judge(around, value, scope)?;
    Ok(Seen {
        ty: seen.ty,
        height: tested.max(seen.height),
        at: seen.at,
    })
}

/// `if`: values of one type behind conditions, and another in their place.
#[cycle(judging)]
fn if_of<'m>(
    around: &Around<'m>,
    at: u32,
    arms: &'m [ExprArm],
    other: &'m Expr,
    scope: &mut Names<Local<'m>>,
) -> Result<Seen, CheckError>
    ensures says { Says (if_of at (map (judge_arm around.now) arms.now) (judge around.now other.now) scope.old) result }
    ensures keeps { OnOk result (scope.new ≡ scope.old) }
{
    let Some((first, rest)) = arms.split_first() else {
        return judge(around, other, scope);
    };
    let seen = arm(around, first, 0, scope)?;
    let height = further_arms(around, rest, &seen, scope)?;
    let last = judge(around, other, scope)?;
    other_seen(seen.ty, height, last, at)
}

/// What `or` and `and` make of what is seen before them.
#[cycle(judging)]
fn tails<'m>(
    around: &Around<'m>,
    rest: &'m [Tail],
    first: Seen,
    scope: &mut Names<Local<'m>>,
) -> Result<Seen, CheckError>
    ensures says { Says (links_from first (map (judge_tail around.now) rest.now) scope.old) result }
    ensures keeps { OnOk result (scope.new ≡ scope.old) }
{
    let mut left = first;
    for tail in rest {
        left = link(around, tail, left, scope)?;
    }
    Ok(left)
}

/// `or` and `and`: bool on both sides.
#[cycle(judging)]
fn link<'m>(
    around: &Around<'m>,
    tail: &'m Tail,
    left: Seen,
    scope: &mut Names<Local<'m>>,
) -> Result<Seen, CheckError>
    ensures says { Says (judge_tail around.now tail.now left scope.old) result }
    ensures keeps { OnOk result (scope.new ≡ scope.old) }
{
    let height = left.height;
    truth(left)?;
    let right = judge(around, &tail.value, scope)?;
    compared_seen(Ty::Bool, height, right, tail.at)
}

/// What signs and their values make of what is seen before them.
#[cycle(judging)]
fn sign_tails<'m>(
    around: &Around<'m>,
    rest: &'m [SignTail],
    first: Seen,
    scope: &mut Names<Local<'m>>,
) -> Result<Seen, CheckError>
    ensures says { Says (links_from first (map (judge_sign_tail around.now) rest.now) scope.old) result }
    ensures keeps { OnOk result (scope.new ≡ scope.old) }
{
    let mut left = first;
    for tail in rest {
        left = sign_link(around, tail, left, scope)?;
    }
    Ok(left)
}

/// A sign and its value, of the type that the sign takes.
#[cycle(judging)]
fn sign_link<'m>(
    around: &Around<'m>,
    tail: &'m SignTail,
    left: Seen,
    scope: &mut Names<Local<'m>>,
) -> Result<Seen, CheckError>
    ensures says { Says (judge_sign_tail around.now tail.now left scope.old) result }
    ensures keeps { OnOk result (scope.new ≡ scope.old) }
{
    let height = left.height;
    let ty = operand(around.alloc(), tail.sign, left)?;
    let right = judge(around, &tail.value, scope)?;
    sign_seen(around, tail.sign, ty, height, right, tail.at)
}

/// What suffixes make of what is seen before them.
#[cycle(judging)]
fn suffixes<'m>(
    around: &Around<'m>,
    rest: &'m [Suffix],
    first: Seen,
    scope: &mut Names<Local<'m>>,
) -> Result<Seen, CheckError>
    ensures says { Says (links_from first (map (judge_suffix around.now) rest.now) scope.old) result }
    ensures keeps { OnOk result (scope.new ≡ scope.old) }
{
    let mut left = first;
    for own in rest {
        left = suffix(around, own, left, scope)?;
    }
    Ok(left)
}

/// A field of a record, an item of a list, or what an option holds.
#[cycle(judging)]
fn suffix<'m>(
    around: &Around<'m>,
    own: &'m Suffix,
    first: Seen,
    scope: &mut Names<Local<'m>>,
) -> Result<Seen, CheckError>
    ensures says { Says (judge_suffix around.now own.now first scope.old) result }
    ensures keeps { OnOk result (scope.new ≡ scope.old) }
{
    match own {
        Suffix::Field { at, name } => field_seen(around, name, first, *at),
        Suffix::Index { at, value } => {
            let height = first.height;
            let item = item_of(around.alloc(), first)?;
            let index = judge(around, value, scope)?;
            item_seen(around, item, height, index, *at)
        }
        Suffix::Unwrap { at } => unwrapped(around, first, *at),
    }
}

/// A call of a function that is declared before: else `Unknown` at the name.
#[cycle(judging)]
fn call_to<'m>(
    around: &Around<'m>,
    name: &Id,
    args: &'m [Expr],
    scope: &mut Names<Local<'m>>,
) -> Result<Seen, CheckError>
    ensures says { Says (call_to around.now name.now (map (judge around.now) args.now) scope.old) result }
    ensures keeps { OnOk result (scope.new ≡ scope.old) }
{
    let Some(func) = around.known().funcs().get(name.name.as_slice()) else {
        return Err(CheckError::Wrong(WrongKind::Unknown, name.at));
    };
    let height = fit_all(around, name, args, func.params(), scope)?;
    call_seen(around, func, height, name.at)
}

/// The greatest height of arguments, which are as many as there are parameters, else `WrongType` at
/// the name, and of their types.
#[cycle(judging)]
pub fn fit_all<'m>(
    around: &Around<'m>,
    name: &Id,
    args: &'m [Expr],
    params: &[Ty],
    scope: &mut Names<Local<'m>>,
) -> Result<u32, CheckError>
    ensures says { Says (fit_all name.now (map (judge around.now) args.now) params.now scope.old) result }
    ensures keeps { OnOk result (scope.new ≡ scope.old) }
{
    if args.len() != params.len() {
        return Err(CheckError::Wrong(WrongKind::WrongType, name.at));
    }
    fit(around, args, params, scope)
}

/// The greatest height of arguments, which are as many as there are parameters and of their types.
#[cycle(judging)]
fn fit<'m>(
    around: &Around<'m>,
    args: &'m [Expr],
    params: &[Ty],
    scope: &mut Names<Local<'m>>,
) -> Result<u32, CheckError>
    requires { length args.now ≡ length params.now }
    ensures says { Says (fit (map (judge around.now) args.now) params.now 0 scope.old) result }
    ensures keeps { OnOk result (scope.new ≡ scope.old) }
{
    let mut height = 0u32;
    for index in 0..args.len() {
        height = fit_one(around, &args[index], &params[index], height, scope)?;
    }
    Ok(height)
}

/// A part of this type: the greater of its height and the one that came before it.
#[cycle(judging)]
fn fit_one<'m>(
    around: &Around<'m>,
    part: &'m Expr,
    own: &Ty,
    height: u32,
    scope: &mut Names<Local<'m>>,
) -> Result<u32, CheckError>
    ensures says { Says (fit_one (judge around.now part.now) own.now height scope.old) result }
    ensures keeps { OnOk result (scope.new ≡ scope.old) }
{
    let seen = judge(around, part, scope)?;
    wanted(own, &seen)?;
    Ok(height.max(seen.height))
}

/// A list of items, all of the first one's type: `WrongType` at one of none.
#[cycle(judging)]
fn list_of<'m>(
    around: &Around<'m>,
    at: u32,
    items: &'m [Expr],
    scope: &mut Names<Local<'m>>,
) -> Result<Seen, CheckError>
    ensures says { Says (list_of around.now at (map (judge around.now) items.now) scope.old) result }
    ensures keeps { OnOk result (scope.new ≡ scope.old) }
{
    let Some((first, rest)) = items.split_first() else {
        return Err(CheckError::Wrong(WrongKind::WrongType, at));
    };
    let seen = judge(around, first, scope)?;
    let height = further_items(around, rest, &seen, scope)?;
    list_seen(around, seen.ty, height, at)
}

/// The greatest height of further items of a list, which are of the first one's type.
#[cycle(judging)]
fn further_items<'m>(
    around: &Around<'m>,
    items: &'m [Expr],
    first: &Seen,
    scope: &mut Names<Local<'m>>,
) -> Result<u32, CheckError>
    ensures says { Says (all_of first.now.ty (map (judge around.now) items.now) first.now.height scope.old) result }
    ensures keeps { OnOk result (scope.new ≡ scope.old) }
{
    let mut height = first.height;
    for item in items {
        height = fit_one(around, item, &first.ty, height, scope)?;
    }
    Ok(height)
}

/// A new record, which is declared before: else `Unknown` at its identifier.
#[cycle(judging)]
fn new_of<'m>(
    around: &Around<'m>,
    at: u32,
    owner: &Id,
    sets: &'m [FieldSet],
    scope: &mut Names<Local<'m>>,
) -> Result<Seen, CheckError>
    ensures says { Says (new_of around.now.known at owner.now (map (judge_set around.now) sets.now) scope.old) result }
    ensures keeps { OnOk result (scope.new ≡ scope.old) }
{
    let Some(number) = around.known().before().number_of(owner.name.as_slice()) else {
        return Err(CheckError::Wrong(WrongKind::Unknown, owner.at));
    };
    record_at(around, at, owner, narrow(number)?, sets, scope)
}

/// A new record, by the number of its type.
#[cycle(judging)]
fn record_at<'m>(
    around: &Around<'m>,
    at: u32,
    owner: &Id,
    number: u32,
    sets: &'m [FieldSet],
    scope: &mut Names<Local<'m>>,
) -> Result<Seen, CheckError>
    ensures says { Says (record_at around.now.known at owner.now number (map (judge_set around.now) sets.now) scope.old) result }
    ensures keeps { OnOk result (scope.new ≡ scope.old) }
{
    let Some(fields) = around.known().fields_at(number) else {
        return Err(CheckError::Wrong(WrongKind::Unknown, owner.at));
    };
    record_of(around, at, owner, number, fields, sets, scope)
}

/// A new record of these fields: all of them in their order, each value of its field's type.
#[cycle(judging)]
fn record_of<'m>(
    around: &Around<'m>,
    at: u32,
    owner: &Id,
    number: u32,
    fields: &Names<Member<'_>>,
    sets: &'m [FieldSet],
    scope: &mut Names<Local<'m>>,
) -> Result<Seen, CheckError>
    ensures says { Says (record_of at owner.now number fields.now (map (judge_set around.now) sets.now) scope.old) result }
    ensures keeps { OnOk result (scope.new ≡ scope.old) }
{
    whole_record(around, owner, fields, sets)?;
    let height = fill(around, sets, fields.as_slice(), scope)?;
    Ok(seen_as(Ty::Rec(number), height, at))
}

/// The greatest height of the values of a new record, which are as many as it has fields and of their
/// types.
#[cycle(judging)]
fn fill<'m>(
    around: &Around<'m>,
    sets: &'m [FieldSet],
    fields: &[Entry<Member<'_>>],
    scope: &mut Names<Local<'m>>,
) -> Result<u32, CheckError>
    requires { length sets.now ≡ length fields.now }
    ensures says { Says (fill (map (judge_set around.now) sets.now) fields.now 0 scope.old) result }
    ensures keeps { OnOk result (scope.new ≡ scope.old) }
{
    let mut height = 0u32;
    for index in 0..sets.len() {
        height = fit_one(
            around,
            &sets[index].value,
            fields[index].get().ty(),
            height,
            scope,
        )?;
    }
    Ok(height)
}

/// A builtin and its arguments, by its row.
#[cycle(judging)]
fn builtin_of<'m>(
    around: &Around<'m>,
    which: Key,
    at: u32,
    args: &'m [Expr],
    scope: &mut Names<Local<'m>>,
) -> Result<Seen, CheckError>
    ensures says { Says (builtin_of around.now (row_of which) at (map (judge around.now) args.now) scope.old) result }
    ensures keeps { OnOk result (scope.new ≡ scope.old) }
{
    let parts = row_of(which).parts;
    if args.len() != parts.len() {
        return Err(CheckError::Wrong(WrongKind::WrongType, at));
    }
    let fitted = fit_parts(around, args, parts, scope)?;
    builtin_seen(around, which, at, fitted)
}

/// What the arguments of a builtin say `T` is, and the height of the highest.
#[cycle(judging)]
fn fit_parts<'m>(
    around: &Around<'m>,
    args: &'m [Expr],
    parts: &[Part],
    scope: &mut Names<Local<'m>>,
) -> Result<Fitted, CheckError>
    requires { length args.now ≡ length parts.now }
    ensures says { Says (fit_parts (map (judge around.now) args.now) parts.now own.Int 0 scope.old) result }
    ensures keeps { OnOk result (scope.new ≡ scope.old) }
{
    let mut fitted = Fitted {
        ty: Ty::Int,
        height: 0,
    };
    for index in 0..args.len() {
        fitted = fit_part(around, &args[index], parts[index], fitted, scope)?;
    }
    Ok(fitted)
}

/// What an argument of a builtin says `T` is, behind those before it, and the height of the highest.
#[cycle(judging)]
fn fit_part<'m>(
    around: &Around<'m>,
    arg: &'m Expr,
    part: Part,
    before: Fitted,
    scope: &mut Names<Local<'m>>,
) -> Result<Fitted, CheckError>
    ensures says { Says (fit_part (judge around.now arg.now) part before scope.old) result }
    ensures keeps { OnOk result (scope.new ≡ scope.old) }
{
    let seen = judge(around, arg, scope)?;
    part_fitted(around.alloc(), part, before, &seen)
}

/// A condition, which is bool: the greater of its height and the one that came before it.
#[cycle(judging)]
pub fn test<'m>(
    around: &Around<'m>,
    cond: &'m Expr,
    height: u32,
    scope: &mut Names<Local<'m>>,
) -> Result<u32, CheckError>
    ensures says { Says (test_of (Some (judge around.now cond.now)) height scope.old) result }
    ensures keeps { OnOk result (scope.new ≡ scope.old) }
{
    fit_one(around, cond, &Ty::Bool, height, scope)
}

/// The same of a condition that need not be there.
#[cycle(judging)]
fn test_if<'m>(
    around: &Around<'m>,
    cond: &'m Option<Boxed<Expr>>,
    height: u32,
    scope: &mut Names<Local<'m>>,
) -> Result<u32, CheckError>
    ensures says { Says (test_of (option_map (judge around.now) cond.now) height scope.old) result }
    ensures keeps { OnOk result (scope.new ≡ scope.old) }
{
    match cond {
        None => Ok(height),
        Some(cond) => test(around, cond.get(), height, scope),
    }
}

/// An arm of an `if`: what is seen of its value, as high as that, its condition and what came before
/// them.
#[cycle(judging)]
fn arm<'m>(
    around: &Around<'m>,
    arm: &'m ExprArm,
    height: u32,
    scope: &mut Names<Local<'m>>,
) -> Result<Seen, CheckError>
    ensures says { Says (judge_arm around.now arm.now height scope.old) result }
    ensures keeps { OnOk result (scope.new ≡ scope.old) }
{
    let tested = test(around, &arm.cond, height, scope)?;
    let seen = judge(around, &arm.value, scope)?;
    Ok(Seen {
        ty: seen.ty,
        height: tested.max(seen.height),
        at: seen.at,
    })
}

/// The greatest height of further arms of an `if`, whose values are of the first one's type.
#[cycle(judging)]
fn further_arms<'m>(
    around: &Around<'m>,
    arms: &'m [ExprArm],
    first: &Seen,
    scope: &mut Names<Local<'m>>,
) -> Result<u32, CheckError>
    ensures says { Says (arms_of first.now.ty (map (judge_arm around.now) arms.now) first.now.height scope.old) result }
    ensures keeps { OnOk result (scope.new ≡ scope.old) }
{
    let mut height = first.height;
    for own in arms {
        height = fit_arm(around, own, &first.ty, height, scope)?;
    }
    Ok(height)
}

/// An arm of an `if` whose value is of this type: how high it is.
#[cycle(judging)]
fn fit_arm<'m>(
    around: &Around<'m>,
    next: &'m ExprArm,
    own: &Ty,
    height: u32,
    scope: &mut Names<Local<'m>>,
) -> Result<u32, CheckError>
    ensures says { Says (fit_arm (judge_arm around.now next.now) own.now height scope.old) result }
    ensures keeps { OnOk result (scope.new ≡ scope.old) }
{
    let seen = arm(around, next, height, scope)?;
    wanted(own, &seen)?;
    Ok(seen.height)
}

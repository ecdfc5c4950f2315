//! The translations of links.

ghost use Rattle.std.specs.Prelude.{◌≡◌, [], ◌∷◌, ◌++◌, false, IfOk, OnOk};
ghost use Rattle.dsde_names.specs.Table.{is_among};
ghost use Rattle.dsde_values.specs.declared.types.Ty.TheVariants as ty;
ghost use Rattle.dsde_language.specs.RuleTables.{binding_name};
ghost use Rattle.dsde_language.specs.Judge.{fixed, fresh};
ghost use Rattle.dsde_language.specs.RuleStructures.{body_via, key_via, keyed_via, through, via_of};
ghost use Rattle.dsde_check_expressions.specs.given.check_scope.Says.{Says};

use crate::values::height_as;
use dsde_check_expressions::given::check_scope::{
    Around, CheckError, bind, close, copy_type, is_same,
};
use dsde_check_expressions::given::check_tables::{Local, option_type};
use dsde_check_expressions::judge;
use dsde_language::{BindingKind, WrongKind};
use dsde_names::Names;
use dsde_syntax::{Expr, ViaKey, ViaPart};
use dsde_values::{Memory, Ty};
use std::alloc::Global;

/// The type of options of a type.
fn option_of(alloc: Global, inner: &Ty) -> Result<Ty, Memory>
    ensures { IfOk result (λ own. own ≡ ty.Opt inner.now) }
{
    option_type(alloc, copy_type(alloc, inner)?)
}

/// The height of a translation, which sees these names alone and is an option of the target's type.
fn body_via<'m>(
    around: &Around<'m>,
    target: &Ty,
    body: &'m Expr,
    scope: &mut Names<Local<'m>>,
) -> Result<u32, CheckError>
    ensures { Says (body_via around.now target.now body.now scope.old) result }
{
    let own = option_of(around.alloc(), target)?;
    let inside = around.translating();
    height_as(&inside, &own, body, scope)
}

/// Binds the name of the value that is translated.
fn bind_value<'m>(
    alloc: Global,
    source: &Ty,
    via: &'m ViaPart,
    names: &mut Names<Local<'m>>,
) -> Result<(), Memory>
    requires { is_among binding_name names.old via.now.value.name ≡ false }
    ensures { OnOk result (names.new ≡ names.old ++ fixed via.now.value source.now ∷ []) }
{
    let copy = copy_type(alloc, source)?;
    bind(names, &via.value, copy, BindingKind::Fixed)
}

/// The name of the value that is translated, alone.
fn value_alone<'m>(alloc: Global, source: &Ty, via: &'m ViaPart) -> Result<Names<Local<'m>>, Memory>
    ensures { IfOk result (λ names. names ≡ fixed via.now.value source.now ∷ []) }
{
    let mut names = Names::new(alloc);
    bind_value(alloc, source, via, &mut names)?;
    Ok(names)
}

/// The second name differs from those of the body, from those in scope and from the first.
fn fresh_key<'m>(
    around: &Around<'m>,
    source: &Ty,
    via: &'m ViaPart,
    key: &'m ViaKey,
    scope: &mut Names<Local<'m>>,
) -> Result<(), CheckError>
    requires { is_among binding_name scope.old via.now.value.name ≡ false }
    ensures says { Says (fresh around.now key.now.name (scope.old ++ fixed via.now.value source.now ∷ [])) result }
    ensures keeps { OnOk result (scope.new ≡ scope.old) }
    ensures free { OnOk result (is_among binding_name (fixed via.now.value source.now ∷ []) key.now.name.name ≡ false) }
{
    let depth = scope.len();
    bind_value(around.alloc(), source, via, scope)?;
    around.fresh(&key.name, scope)?;
    close(scope, depth);
    Ok(())
}

/// The height of a translation of two names, which differ from all others and from each other.
fn keyed_via<'m>(
    around: &Around<'m>,
    source: &Ty,
    target: &Ty,
    via: &'m ViaPart,
    key: &'m ViaKey,
    own: Ty,
    scope: &mut Names<Local<'m>>,
) -> Result<u32, CheckError>
    ensures says { Says (keyed_via around.now source.now target.now via.now key.now own scope.old) result }
    ensures keeps { OnOk result (scope.new ≡ scope.old) }
{
    around.fresh(&via.value, scope)?;
    fresh_key(around, source, via, key, scope)?;
    let mut names = value_and_key(around.alloc(), source, via, key, own)?;
    body_via(around, target, &via.body, &mut names)
}

/// The two names of a translation, alone.
fn value_and_key<'m>(
    alloc: Global,
    source: &Ty,
    via: &'m ViaPart,
    key: &'m ViaKey,
    own: Ty,
) -> Result<Names<Local<'m>>, Memory>
    requires { is_among binding_name (fixed via.now.value source.now ∷ []) key.now.name.name ≡ false }
    ensures { IfOk result (λ names. names ≡ fixed via.now.value source.now ∷ fixed key.now.name own ∷ []) }
{
    let mut names = value_alone(alloc, source, via)?;
    bind(&mut names, &key.name, own, BindingKind::Fixed)?;
    Ok(names)
}

/// The key expression, the names, and then the translation.
fn key_via<'m>(
    around: &Around<'m>,
    source: &Ty,
    target: &Ty,
    via: &'m ViaPart,
    key: &'m ViaKey,
    scope: &mut Names<Local<'m>>,
) -> Result<u32, CheckError>
    ensures says { Says (key_via around.now source.now target.now via.now key.now scope.old) result }
    ensures keeps { OnOk result (scope.new ≡ scope.old) }
{
    let seen = judge(around, &key.value, scope)?;
    let before = seen.height;
    let height = keyed_via(around, source, target, via, key, seen.ty, scope)?;
    Ok(before.max(height))
}

/// The height of a translation, which sees one name or two.
fn via_of<'m>(
    around: &Around<'m>,
    source: &Ty,
    target: &Ty,
    via: &'m ViaPart,
    scope: &mut Names<Local<'m>>,
) -> Result<u32, CheckError>
    ensures says { Says (via_of around.now source.now target.now via.now scope.old) result }
    ensures keeps { OnOk result (scope.new ≡ scope.old) }
{
    if let Some(key) = &via.key {
        return key_via(around, source, target, via, key, scope);
    }
    around.fresh(&via.value, scope)?;
    let mut alone = value_alone(around.alloc(), source, via)?;
    body_via(around, target, &via.body, &mut alone)
}

/// The height of how values go through a link. Without a translation both ports have one type, else
/// `WrongType` at the link.
pub(crate) fn through<'m>(
    around: &Around<'m>,
    at: u32,
    source: &Ty,
    target: &Ty,
    via: &'m Option<ViaPart>,
    scope: &mut Names<Local<'m>>,
) -> Result<u32, CheckError>
    ensures says { Says (through around.now at source.now target.now via.now scope.old) result }
    ensures keeps { OnOk result (scope.new ≡ scope.old) }
{
    if let Some(part) = via {
        return via_of(around, source, target, part, scope);
    }
    if !is_same(source, target) {
        return Err(CheckError::Wrong(WrongKind::WrongType, at));
    }
    Ok(0)
}

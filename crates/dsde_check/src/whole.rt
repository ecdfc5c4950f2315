//! The check of a model, by three passes over its declarations.

ghost use Rattle.std.specs.Prelude.{◌≡◌};
ghost use Rattle.std.specs.List.{list_any};
ghost use Rattle.dsde_language.specs.RuleTables.{known_of};
ghost use Rattle.dsde_language.specs.Rules.{decls_rule, is_top, top_rules, rules, first_wrong};
ghost use Rattle.dsde_check_bodies.specs.given.check_scope.Says.{Says, Tells};

use crate::CheckError;
use crate::declared::decl_rule;
use crate::own::apart_all;
use dsde_check_bodies::given::check_scope::narrow;
use dsde_check_bodies::given::check_tables::Known;
use dsde_language::WrongKind;
use dsde_syntax::{Decl, Model, tokens_of};
use std::alloc::Global;

/// Whether nothing is wrong in a model. `Wrong` is exactly the first wrong thing, with its place.
pub fn check(alloc: Global, model: &Model) -> Result<(), CheckError>
    ensures says { Says (rules model.now) result }
    ensures tells { Tells (first_wrong model.now) result }
{
    apart_all(alloc, model.decls.as_slice())?;
    all_rules(alloc, model.decls.as_slice())?;
    top_rules(alloc, model)
}

/// All declarations, from what is known before the first.
fn all_rules(alloc: Global, decls: &[Decl]) -> Result<(), CheckError>
    ensures { Says (decls_rule (known_of decls.now) decls.now) result }
{
    let mut known = Known::of(alloc, decls)?;
    decls_rule(alloc, &mut known, decls)
}

/// Each declaration in text order, over what is known behind those before it.
fn decls_rule<'m>(alloc: Global, known: &mut Known<'m>, decls: &'m [Decl]) -> Result<(), CheckError>
    ensures { Says (decls_rule known.old decls.now) result }
{
    for decl in decls {
        decl_rule(alloc, known, decl)?;
    }
    Ok(())
}

/// There is a `top`: where there is none, `NoTop` at the end of the text.
fn top_rules(alloc: Global, model: &Model) -> Result<(), CheckError>
    ensures { Says (top_rules model.now) result }
{
    if has_top(model.decls.as_slice()) {
        return Ok(());
    }
    let tokens = tokens_of(alloc, model)?;
    Err(CheckError::Wrong(WrongKind::NoTop, narrow(tokens.len())?))
}

fn has_top(decls: &[Decl]) -> bool
    ensures { result ≡ list_any is_top decls.now }
{
    decls.iter().any(is_top)
}

fn is_top(decl: &Decl) -> bool
    ensures { result ≡ is_top decl.now }
{
    matches!(decl, Decl::Top { .. })
}

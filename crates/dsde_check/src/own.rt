//! The names that declarations take.

ghost use Rattle.std.specs.Prelude.{◌≡◌, ◌++◌, ◌∷◌, [], OnOk};
ghost use Rattle.dsde_language.specs.Steps.{apart};
ghost use Rattle.dsde_language.specs.Rules.{own_name, apart_all, distinct};
ghost use Rattle.dsde_check_bodies.specs.given.check_scope.Says.{Says};

use crate::CheckError;
use dsde_check_bodies::given::check_tables::Word;
use dsde_language::WrongKind;
use dsde_names::Names;
use dsde_syntax::{Decl, Id, Key};
use std::alloc::Global;

/// The names of all declarations differ: `Duplicate` at the first that another one has before it.
pub(crate) fn apart_all(alloc: Global, decls: &[Decl]) -> Result<(), CheckError>
    ensures { Says (apart_all [] decls.now) result }
{
    let mut names = Names::new(alloc);
    take_all(&mut names, decls)
}

/// The names of declarations differ from each other and from those before them.
fn take_all<'m>(names: &mut Names<Word<'m>>, decls: &'m [Decl]) -> Result<(), CheckError>
    ensures { Says (apart_all names.old decls.now) result }
{
    for decl in decls {
        let (name, at) = own_name(decl);
        take(names, name, at)?;
    }
    Ok(())
}

/// The variants of an enum differ: `Duplicate` at the first that another one is before it.
pub(crate) fn distinct(alloc: Global, ids: &[Id]) -> Result<(), CheckError>
    ensures { Says (distinct [] ids.now) result }
{
    let mut names = Names::new(alloc);
    take_ids(&mut names, ids)
}

/// Identifiers differ from each other and from the names before them.
fn take_ids<'m>(names: &mut Names<Word<'m>>, ids: &'m [Id]) -> Result<(), CheckError>
    ensures { Says (distinct names.old ids.now) result }
{
    for id in ids {
        take(names, id.name.as_slice(), id.at)?;
    }
    Ok(())
}

/// The name that a declaration takes, and its place: its identifier, and for `top` its own word,
/// which is none.
fn own_name(decl: &Decl) -> (&[u8], u32)
    ensures { own_name decl.now ≡ record { name = result.0.now; at = result.1 } }
{
    match decl {
        Decl::Enum { name, .. }
        | Decl::Rec { name, .. }
        | Decl::Func { name, .. }
        | Decl::Atomic { name, .. }
        | Decl::Network { name, .. } => (name.name.as_slice(), name.at),
        Decl::Top { at, .. } => (Key::Top.text().as_bytes(), *at),
    }
}

/// Adds a name that differs from others: `Duplicate` at its place where it does not.
fn take<'m>(names: &mut Names<Word<'m>>, name: &'m [u8], at: u32) -> Result<(), CheckError>
    ensures says { Says (apart names.old (record { name = name.now; at = at })) result }
    ensures adds { OnOk result (names.new ≡ names.old ++ name.now ∷ []) }
{
    if names.insert(Word::of(name))? {
        return Ok(());
    }
    Err(CheckError::Wrong(WrongKind::Duplicate, at))
}

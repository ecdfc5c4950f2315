//! The identifiers of types that a file declares or names.

ghost use Rattle.std.specs.Prelude.{◌≡◌, OnOk};
ghost use Rattle.std.specs.Option.{option_copied};
ghost use Rattle.dsde_language.specs.RuleTables.{with_word, declared_word, declared_words, used_in, used_word, used_typed, used_ports, used_decl, used_words};

use crate::TypeEntry;
use crate::word::put;
use dsde_language::given::names::Names;
use dsde_syntax::given::lists::Memory;
use dsde_syntax::{Decl, Id, PortDecl, TypeName, Typed};

fn with_word<'m>(words: &mut Names<TypeEntry<'m>>, is_enum: bool, id: &'m Id) -> Result<(), Memory>
    ensures { OnOk result (words.new ≡ with_word words.old is_enum id.now) }
{
    put(words, TypeEntry::new(id, is_enum))
}

fn declared_word<'m>(words: &mut Names<TypeEntry<'m>>, decl: &'m Decl) -> Result<(), Memory>
    ensures { OnOk result (words.new ≡ declared_word words.old decl.now) }
{
    match decl {
        Decl::Enum { name, .. } => with_word(words, true, name),
        Decl::Rec { name, .. } => with_word(words, false, name),
        _ => Ok(()),
    }
}

/// Adds the identifiers of the types that are declared, in text order.
pub(crate) fn declared_words<'m>(
    words: &mut Names<TypeEntry<'m>>,
    decls: &'m [Decl],
) -> Result<(), Memory>
    ensures { OnOk result (words.new ≡ declared_words words.old decls.now) }
{
    for decl in decls {
        declared_word(words, decl)?;
    }
    Ok(())
}

/// The identifier in a type, if there is one.
fn used_in(ty: &TypeName) -> Option<&Id>
    ensures { option_copied result ≡ used_in ty.now }
{
    match ty {
        TypeName::Int(_) | TypeName::Bool(_) => None,
        TypeName::Named(id) => Some(id),
        TypeName::List(_, part) | TypeName::Opt(_, part) => used_in(part.get()),
    }
}

fn used_word<'m>(words: &mut Names<TypeEntry<'m>>, ty: &'m TypeName) -> Result<(), Memory>
    ensures { OnOk result (words.new ≡ used_word words.old ty.now) }
{
    match used_in(ty) {
        Some(id) => with_word(words, false, id),
        None => Ok(()),
    }
}

fn used_typed<'m>(words: &mut Names<TypeEntry<'m>>, parts: &'m [Typed]) -> Result<(), Memory>
    ensures { OnOk result (words.new ≡ used_typed words.old parts.now) }
{
    for part in parts {
        used_word(words, &part.ty)?;
    }
    Ok(())
}

fn used_ports<'m>(words: &mut Names<TypeEntry<'m>>, ports: &'m [PortDecl]) -> Result<(), Memory>
    ensures { OnOk result (words.new ≡ used_ports words.old ports.now) }
{
    for port in ports {
        used_word(words, &port.ty)?;
    }
    Ok(())
}

/// Adds the identifiers that the fields, parameters and ports of a declaration name.
fn used_decl<'m>(words: &mut Names<TypeEntry<'m>>, decl: &'m Decl) -> Result<(), Memory>
    ensures { OnOk result (words.new ≡ used_decl words.old decl.now) }
{
    match decl {
        Decl::Rec { fields, .. } => used_typed(words, fields.as_slice()),
        Decl::Atomic { params, body, .. } => {
            used_typed(words, params.as_slice())?;
            used_ports(words, body.ports.as_slice())
        }
        Decl::Network { params, ports, .. } => {
            used_typed(words, params.as_slice())?;
            used_ports(words, ports.as_slice())
        }
        _ => Ok(()),
    }
}

/// Adds the identifiers that all declarations name, in text order.
pub(crate) fn used_words<'m>(
    words: &mut Names<TypeEntry<'m>>,
    decls: &'m [Decl],
) -> Result<(), Memory>
    ensures { OnOk result (words.new ≡ used_words words.old decls.now) }
{
    for decl in decls {
        used_decl(words, decl)?;
    }
    Ok(())
}

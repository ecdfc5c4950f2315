//! Names that are seen.

ghost use Rattle.std.specs.Prelude.{◌≡◌, ◌++◌, ◌∷◌, [], false, take, OnOk};
ghost use Rattle.std.specs.List.{list_any};
ghost use Rattle.std.specs.Str.{bytes_eq};
ghost use Rattle.dsde_names.specs.Table.{is_among};
ghost use Rattle.dsde_language.specs.RuleTables.{binding_name};
ghost use Rattle.dsde_language.specs.Steps.{apart};
ghost use Rattle.dsde_language.specs.Judge.{unbound};
ghost use Rattle.dsde_check_scope.specs.Says.{Says};

use crate::CheckError;
use dsde_check_tables::{Local, Word};
use dsde_language::{BindingKind, WrongKind};
use dsde_names::Names;
use dsde_syntax::{Id, Memory};
use dsde_values::Ty;

/// A name differs from others: `Duplicate` at it.
pub fn apart(names: &Names<Word<'_>>, id: &Id) -> Result<(), CheckError>
    ensures says { Says (apart names.now id.now) result }
    ensures free { OnOk result (list_any (λ name. bytes_eq name id.now.name) names.now ≡ false) }
{
    if names.has(id.name.as_slice()) {
        return Err(CheckError::Wrong(WrongKind::Duplicate, id.at));
    }
    Ok(())
}

/// A name differs from those in scope: `Duplicate` at it.
pub fn unbound(scope: &Names<Local<'_>>, id: &Id) -> Result<(), CheckError>
    ensures says { Says (unbound scope.now id.now) result }
    ensures free { OnOk result (is_among binding_name scope.now id.now.name ≡ false) }
{
    if scope.has(id.name.as_slice()) {
        return Err(CheckError::Wrong(WrongKind::Duplicate, id.at));
    }
    Ok(())
}

/// Binds one more name, which none in scope is.
pub fn bind<'m>(
    scope: &mut Names<Local<'m>>,
    id: &'m Id,
    ty: Ty,
    kind: BindingKind,
) -> Result<(), Memory>
    requires { is_among binding_name scope.old id.now.name ≡ false }
    ensures { OnOk result (scope.new ≡ scope.old ++ record { name = id.now.name; ty = ty; kind = kind } ∷ []) }
{
    scope.push(Local::new(id.name.as_slice(), ty, kind))
}

/// Ends braces that began where this many names were seen: those that were bound in them are seen no
/// more.
pub fn close(scope: &mut Names<Local<'_>>, depth: usize)
    ensures { scope.new ≡ take depth scope.old }
{
    scope.truncate(depth);
}

//! Parameters and types, by what is known round them.

ghost use Rattle.std.specs.Prelude.{◌≡◌, ◌++◌, [], IfOk, OnOk};
ghost use Rattle.dsde_language.specs.Judge.{type_of};
ghost use Rattle.dsde_language.specs.Blocks.{params_all};
ghost use Rattle.dsde_check_expressions.specs.given.check_scope.Says.{Says};
ghost use Rattle.dsde_check_bodies.specs.Parts.{types_of};

use dsde_check_expressions::given::check_scope::{
    Around, CheckError, copy_type, params_all, type_of,
};
use dsde_check_expressions::given::check_tables::Local;
use dsde_language::TypeSeen;
use dsde_names::Names;
use dsde_syntax::{Memory, TypeName, Typed};
use dsde_values::{Seq, Ty};
use std::alloc::Global;

/// A type as it is written.
pub(crate) fn own_type(around: &Around<'_>, ty: &TypeName) -> Result<TypeSeen, CheckError>
    ensures { Says (type_of around.now.known ty.now) result }
{
    type_of(around.alloc(), around.known(), ty)
}

/// Parameters, as names that are seen.
pub(crate) fn own_params<'m>(
    around: &Around<'_>,
    params: &'m [Typed],
) -> Result<Names<Local<'m>>, CheckError>
    ensures { Says (params_all around.now.known [] params.now) result }
{
    params_all(around.alloc(), around.known(), params)
}

/// The types of names that are seen.
pub(crate) fn types_of(alloc: Global, scope: &Names<Local<'_>>) -> Result<Seq<Ty>, Memory>
    ensures { IfOk result (λ types. types ≡ types_of scope.now) }
{
    let mut types = Seq::new(alloc);
    add_types(alloc, &mut types, scope)?;
    Ok(types)
}

/// Adds the types of names that are seen.
fn add_types(alloc: Global, types: &mut Seq<Ty>, scope: &Names<Local<'_>>) -> Result<(), Memory>
    ensures { OnOk result (types.new ≡ types.old ++ types_of scope.now) }
{
    for bound in scope.as_slice() {
        types.push(copy_type(alloc, bound.get().ty())?)?;
    }
    Ok(())
}

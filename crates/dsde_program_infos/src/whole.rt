//! All that is known of a file by its text.

ghost use Rattle.std.specs.Prelude.{◌≡◌, IfOk, OnOk};
ghost use Rattle.dsde_language.specs.RuleTables.{by_text, text_params};
ghost use Rattle.dsde_language.specs.DeclaredModels.{with_func, with_funcs, whole_of};

use dsde_check_tables::{Callee, Known};
use dsde_syntax::given::lists::Memory;
use dsde_syntax::{Decl, Id, Model, TypeName, Typed};
use std::alloc::Global;

/// All that is known of a file by its text: its types, its models and its functions.
pub fn whole_of<'m>(alloc: Global, model: &'m Model) -> Result<Known<'m>, Memory>
    ensures { IfOk result (λ known. known ≡ whole_of model.now) }
{
    let mut known = Known::of(alloc, model.decls.as_slice())?;
    let done = with_funcs(alloc, &mut known, model.decls.as_slice());
    done.and(Ok(known))
}

/// Adds the functions by their text, in text order.
fn with_funcs<'m>(alloc: Global, known: &mut Known<'m>, decls: &'m [Decl]) -> Result<(), Memory>
    ensures { OnOk result (known.new ≡ with_funcs known.old decls.now) }
{
    for decl in decls {
        with_func(alloc, known, decl)?;
    }
    Ok(())
}

/// Adds a function by its text, if the declaration is one.
fn with_func<'m>(alloc: Global, known: &mut Known<'m>, decl: &'m Decl) -> Result<(), Memory>
    ensures { OnOk result (known.new ≡ with_func known.old decl.now) }
{
    match decl {
        Decl::Func {
            name,
            params,
            result: gives,
            ..
        } => {
            let func = func_of(alloc, known, name, params.as_slice(), gives)?;
            known.behind_func(func)
        }
        _ => Ok(()),
    }
}

/// A function by its text.
fn func_of<'m>(
    alloc: Global,
    known: &Known<'_>,
    name: &'m Id,
    params: &[Typed],
    gives: &TypeName,
) -> Result<Callee<'m>, Memory>
    ensures { IfOk result (λ func. func ≡ record { name = name.now.name; params = text_params known.now.words params.now; result = by_text known.now.words gives.now; height = 0 }) }
{
    let params = known.text_params(alloc, params)?;
    let gives = known.by_text(alloc, gives)?;
    Ok(Callee::new(name.name.as_slice(), params, gives, 0))
}

//! Components.

ghost use Rattle.std.specs.Prelude.{◌≡◌, IfOk, OnOk};
ghost use Rattle.dsde_program_structures.specs.Parts.{lay_comp};

use crate::arguments::exprs;
use crate::ends::index;
use dsde_language::given::names::Names;
use dsde_language::{Make, Tables};
use dsde_lists::Memory;
use dsde_program_expressions::Resolver;
use dsde_program_expressions::given::check_tables::Member;
use dsde_program_expressions::given::program_slots::model_id;
use dsde_syntax::{Bracket, Expr, Id};
use dsde_values::Text;

/// Lays a component, soft or not: its index, and then the arguments of its model.
pub(crate) fn comp<'m>(
    resolver: &Resolver<'m>,
    at: u32,
    name: &Id,
    own: &'m Option<Bracket>,
    soft: bool,
    model: &Id,
    given: &'m [Expr],
    scope: &mut Names<Member<'m>>,
    tables: &mut Tables,
) -> Result<Make, Memory>
    ensures own { IfOk result (λ made. made ≡ (lay_comp resolver.now at name.now own.now soft model.now given.now scope.old tables.old).own) }
    ensures tables { OnOk result (tables.new ≡ (lay_comp resolver.now at name.now own.now soft model.now given.now scope.old tables.old).tables) }
    ensures seen { OnOk result (scope.new ≡ (lay_comp resolver.now at name.now own.now soft model.now given.now scope.old tables.old).scope) }
    ensures kept { OnOk result (scope.new ≡ scope.old) }
{
    let index = index(resolver, own, scope, tables)?;
    let args = exprs(resolver, given, scope, tables)?;
    let model = model_id(resolver.known(), model.name.as_slice())?;
    let stem = Text::from_slice(resolver.alloc(), name.name.as_slice())?;
    Ok(Make::Comp {
        at,
        stem,
        index,
        model,
        args,
        soft,
    })
}

//! Bodies of atomic models and executives.

ghost use Rattle.std.specs.Prelude.{◌≡◌, [], ◌++◌, length, IfOk, OnOk};
ghost use Rattle.dsde_language.specs.RuleTables.{by_text};
ghost use Rattle.dsde_language.specs.Expressions.{expr_id};
ghost use Rattle.dsde_language.specs.DeclaredModels.{state_fields};
ghost use Rattle.dsde_language.specs.Names.{with_slot, with_slots};
ghost use Rattle.dsde_program_expressions.specs.given.program_layout.Lay.{lay};
ghost use Rattle.dsde_program_expressions.specs.given.program_layout.LayStatements.{lay_body, lay_states};
ghost use Rattle.dsde_program_bodies.specs.Parts.{lay_code, lay_moves};

use crate::phases::{blocks, phase_at};
use crate::values::number_of;
use dsde_language::given::names::Names;
use dsde_language::{Code, ExprId, Tables};
use dsde_program_expressions::Resolver;
use dsde_program_expressions::given::check_tables::Member;
use dsde_program_expressions::given::program_slots::{bind, params_scope};
use dsde_syntax::given::lists::Memory;
use dsde_syntax::{Body, StateDecl, Typed};
use dsde_values::Seq;

/// Lays a body behind tables, whose `atomic` or `exec` stands at this place, over its parameters.
pub fn body<'m>(
    resolver: &Resolver<'m>,
    params: &'m [Typed],
    at: u32,
    body: &'m Body,
    tables: &mut Tables,
) -> Result<Code, Memory>
    ensures own { IfOk result (λ code. code ≡ (lay_body resolver.now params.now at body.now [] tables.old).own) }
    ensures tables { OnOk result (tables.new ≡ (lay_body resolver.now params.now at body.now [] tables.old).tables) }
{
    let mut scope = params_scope(resolver.alloc(), resolver.known(), params)?;
    code(resolver, at, body, &mut scope, tables)
}

/// Lays a body over its parameters, behind which the scope gains its other names.
fn code<'m>(
    resolver: &Resolver<'m>,
    at: u32,
    body: &'m Body,
    scope: &mut Names<Member<'m>>,
    tables: &mut Tables,
) -> Result<Code, Memory>
    ensures own { IfOk result (λ code. code ≡ (lay_code resolver.now scope.old at body.now [] tables.old).own) }
    ensures tables { OnOk result (tables.new ≡ (lay_code resolver.now scope.old at body.now [] tables.old).tables) }
{
    let inits = states(resolver, body.states.as_slice(), scope, tables)?;
    moves(resolver, at, body, inits, scope, tables)
}

/// Lays what stands in a body behind its state variables, of which these are the first values.
fn moves<'m>(
    resolver: &Resolver<'m>,
    at: u32,
    body: &'m Body,
    inits: Seq<ExprId>,
    scope: &mut Names<Member<'m>>,
    tables: &mut Tables,
) -> Result<Code, Memory>
    ensures own { IfOk result (λ code. code ≡ (lay_moves resolver.now scope.old at body.now inits [] tables.old).own) }
    ensures tables { OnOk result (tables.new ≡ (lay_moves resolver.now scope.old at body.now inits [] tables.old).tables) }
{
    let advance = number_of(resolver, &body.advance, scope, tables)?;
    let ids = blocks(resolver, body, scope, tables)?;
    Ok(Code {
        start_at: at,
        advance_at: body.advance_at,
        external_at: phase_at(&body.external),
        confluent_at: phase_at(&body.confluent),
        inits,
        advance,
        output: ids.output,
        internal: ids.internal,
        external: ids.external,
        confluent: ids.confluent,
    })
}

/// Lays the first values of state variables, each over the parameters and those before it, and adds
/// the variables to the scope.
fn states<'m>(
    resolver: &Resolver<'m>,
    states: &'m [StateDecl],
    scope: &mut Names<Member<'m>>,
    tables: &mut Tables,
) -> Result<Seq<ExprId>, Memory>
    ensures own { IfOk result (λ inits. inits ≡ (lay_states resolver.now states.now scope.old tables.old).own) }
    ensures tables { OnOk result (tables.new ≡ (lay_states resolver.now states.now scope.old tables.old).tables) }
    ensures scope { OnOk result (scope.new ≡ with_slots scope.old (state_fields resolver.now states.now)) }
{
    let mut inits = Seq::new(resolver.alloc());
    add_states(resolver, states, &mut inits, scope, tables)?;
    Ok(inits)
}

/// Lays state variables, and adds the numbers of their first values.
fn add_states<'m>(
    resolver: &Resolver<'m>,
    states: &'m [StateDecl],
    inits: &mut Seq<ExprId>,
    scope: &mut Names<Member<'m>>,
    tables: &mut Tables,
) -> Result<(), Memory>
    ensures own { OnOk result (inits.new ≡ inits.old ++ (lay_states resolver.now states.now scope.old tables.old).own) }
    ensures tables { OnOk result (tables.new ≡ (lay_states resolver.now states.now scope.old tables.old).tables) }
    ensures scope { OnOk result (scope.new ≡ with_slots scope.old (state_fields resolver.now states.now)) }
{
    for state in states {
        inits.push(first_value(resolver, state, scope, tables)?)?;
    }
    Ok(())
}

/// Lays the first value of a state variable, and adds the variable to the scope.
fn first_value<'m>(
    resolver: &Resolver<'m>,
    state: &'m StateDecl,
    scope: &mut Names<Member<'m>>,
    tables: &mut Tables,
) -> Result<ExprId, Memory>
    ensures number { IfOk result (λ number. number ≡ expr_id (length tables.old.nodes)) }
    ensures tables { OnOk result (tables.new ≡ record tables.old { nodes = (lay resolver.now state.now.value scope.old tables.old.nodes).table }) }
    ensures scope { OnOk result (scope.new ≡ with_slot scope.old state.now.name.name (by_text resolver.now.words state.now.ty)) }
{
    let number = number_of(resolver, &state.value, scope, tables)?;
    let ty = resolver.known().by_text(resolver.alloc(), &state.ty)?;
    bind(scope, state.name.name.as_slice(), ty)?;
    Ok(number)
}

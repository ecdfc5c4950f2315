//! The blocks of a body.

ghost use Rattle.std.specs.Prelude.{◌≡◌, [], true, IfOk, OnOk};
ghost use Rattle.dsde_language.specs.DeclaredModels.{port_fields};
ghost use Rattle.dsde_language.specs.Statements.{phase_at};
ghost use Rattle.dsde_language.specs.Names.{with_slots};
ghost use Rattle.dsde_program_expressions.specs.given.program_layout.LayStatements.{lay_blocks, lay_phase};

use crate::statements::block;
use dsde_language::given::names::Names;
use dsde_language::{BlockId, Tables};
use dsde_program_expressions::Resolver;
use dsde_program_expressions::given::check_tables::Member;
use dsde_program_expressions::given::program_slots::{ports_scope, see_inputs};
use dsde_syntax::given::lists::Memory;
use dsde_syntax::{Body, Phase};

/// The numbers of the blocks of a body.
#[derive(Clone, Copy)]
pub(crate) struct PhaseIds {
    pub output: Option<BlockId>,
    pub internal: Option<BlockId>,
    pub external: Option<BlockId>,
    pub confluent: Option<BlockId>,
}

/// Lays the blocks of a body: output and internal see parameters and state variables, external and
/// confluent the in ports beside them, which stay in the scope.
pub(crate) fn blocks<'m>(
    resolver: &Resolver<'m>,
    body: &'m Body,
    scope: &mut Names<Member<'m>>,
    tables: &mut Tables,
) -> Result<PhaseIds, Memory>
    ensures output { IfOk result (λ ids. ids.output ≡ (lay_blocks resolver.now scope.old body.now [] tables.old).own.output) }
    ensures internal { IfOk result (λ ids. ids.internal ≡ (lay_blocks resolver.now scope.old body.now [] tables.old).own.internal) }
    ensures external { IfOk result (λ ids. ids.external ≡ (lay_blocks resolver.now scope.old body.now [] tables.old).own.external) }
    ensures confluent { IfOk result (λ ids. ids.confluent ≡ (lay_blocks resolver.now scope.old body.now [] tables.old).own.confluent) }
    ensures tables { OnOk result (tables.new ≡ (lay_blocks resolver.now scope.old body.now [] tables.old).tables) }
{
    let output = output(resolver, body, scope, tables)?;
    let internal = moving(resolver, &body.internal, scope, tables)?;
    see_inputs(
        resolver.alloc(),
        resolver.known(),
        body.ports.as_slice(),
        scope,
    )?;
    let external = moving(resolver, &body.external, scope, tables)?;
    let confluent = moving(resolver, &body.confluent, scope, tables)?;
    Ok(PhaseIds {
        output,
        internal,
        external,
        confluent,
    })
}

/// Lays the block of output, which sends through the out ports.
fn output<'m>(
    resolver: &Resolver<'m>,
    body: &'m Body,
    scope: &mut Names<Member<'m>>,
    tables: &mut Tables,
) -> Result<Option<BlockId>, Memory>
    ensures own { IfOk result (λ own. own ≡ (lay_phase resolver.now (with_slots [] (port_fields resolver.now true body.now.ports)) scope.old body.now.output [] tables.old).own) }
    ensures tables { OnOk result (tables.new ≡ (lay_phase resolver.now (with_slots [] (port_fields resolver.now true body.now.ports)) scope.old body.now.output [] tables.old).tables) }
    ensures scope { OnOk result ((lay_phase resolver.now (with_slots [] (port_fields resolver.now true body.now.ports)) scope.old body.now.output [] tables.old).scope ≡ []) }
    ensures kept { OnOk result (scope.new ≡ scope.old) }
{
    let outs = ports_scope(
        resolver.alloc(),
        resolver.known(),
        true,
        body.ports.as_slice(),
    )?;
    phase(resolver, &outs, &body.output, scope, tables)
}

/// Lays the block of a phase that sends nothing.
fn moving<'m>(
    resolver: &Resolver<'m>,
    own: &'m Option<Phase>,
    scope: &mut Names<Member<'m>>,
    tables: &mut Tables,
) -> Result<Option<BlockId>, Memory>
    ensures own { IfOk result (λ number. number ≡ (lay_phase resolver.now [] scope.old own.now [] tables.old).own) }
    ensures tables { OnOk result (tables.new ≡ (lay_phase resolver.now [] scope.old own.now [] tables.old).tables) }
    ensures scope { OnOk result ((lay_phase resolver.now [] scope.old own.now [] tables.old).scope ≡ []) }
    ensures kept { OnOk result (scope.new ≡ scope.old) }
{
    let outs = Names::new(resolver.alloc());
    phase(resolver, &outs, own, scope, tables)
}

/// Lays the block of a phase, if there is one.
fn phase<'m>(
    resolver: &Resolver<'m>,
    outs: &Names<Member<'_>>,
    own: &'m Option<Phase>,
    scope: &mut Names<Member<'m>>,
    tables: &mut Tables,
) -> Result<Option<BlockId>, Memory>
    ensures own { IfOk result (λ number. number ≡ (lay_phase resolver.now outs.now scope.old own.now [] tables.old).own) }
    ensures tables { OnOk result (tables.new ≡ (lay_phase resolver.now outs.now scope.old own.now [] tables.old).tables) }
    ensures scope { OnOk result ((lay_phase resolver.now outs.now scope.old own.now [] tables.old).scope ≡ []) }
    ensures kept { OnOk result (scope.new ≡ scope.old) }
{
    match own {
        None => Ok(None),
        Some(phase) => {
            let number = block(resolver, outs, phase.stmts.as_slice(), scope, tables)?;
            Ok(Some(number))
        }
    }
}

/// The place of a phase, or 0.
pub(crate) fn phase_at(phase: &Option<Phase>) -> u32
    ensures { result ≡ phase_at phase.now }
{
    match phase {
        Some(own) => own.at,
        None => 0,
    }
}

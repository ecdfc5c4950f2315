//! Declarations and whole models, read from their tokens. A part that is large stays on the heap
//! while more is read behind it.

ghost use Rattle.std.specs.Prelude.{◌≡◌, ◌<◌, ◌∷◌, ◌++◌, [], true, false, map, OnOk, IfErr};
ghost use Rattle.dsde_syntax.specs.Grammar.{id_tokens, typed_tokens, params_tokens, port_tokens, state_tokens, phase_tokens, body_tokens, result_tokens, decl_tokens};
ghost use Rattle.dsde_syntax.specs.Places.{args_span, id_span, typed_span, port_span, state_span, phase_span, body_span, result_span, decl_span};
ghost use Rattle.dsde_syntax.specs.Levels.{is_expr, is_item, is_state, is_phase, is_body, is_decl};
ghost use Rattle.dsde_words.specs.declared.key.Key.TheVariants as key;
ghost use Rattle.dsde_syntax.specs.declared.token.Sign.TheVariants as sign;
ghost use Rattle.dsde_parser_grammar.specs.Want as want;
ghost use Rattle.dsde_parser_grammar.specs.Steps.{args, typed, params, body, function_body, structure, executive, network_body, start};
ghost use Rattle.dsde_parser_expressions.specs.Follows.{Meets, StopsBy, stop_at, next_is, begins_port};
ghost use Rattle.dsde_parser_expressions.specs.Took.{Reads, ReadsAll, Any};
ghost use Rattle.dsde_parser_expressions.specs.Parts.{AllOk, SomeOk, IsOk, joined_by, all_by, commas_by, spans_by, any_ok};
ghost use Rattle.dsde_parser_declarations.specs.Parts.{ResultOk, ExecOk, exec_spelled, exec_placed, NetworkOk, network_spelled, network_placed, phases_spelled, phases_placed, PhasesOk, structure_tokens, structure_span, advance_tokens, advance_span};

use dsde_parser_expressions::{ParseError, Parser};
use dsde_parser_statements::{block, items_block, stmts};
use dsde_syntax::{
    Body, Boxed, Decl, Expr, Id, Item, Items, Key, Phase, PortDecl, Sign, StateDecl, Stmt, Typed,
};

/// {decl}
pub fn decls(parser: &mut Parser) -> Result<Items<Decl>, ParseError>
    ensures took { ReadsAll (joined_by decl_tokens) (all_by decl_span) (AllOk is_decl) parser.old result parser.new }
    ensures same { IfErr result (λ error. StopsBy error (stop_at start parser.old)) }
    ensures whole { OnOk result (parser.new.1 ≡ []) }
{
    let mut decls = Items::new(parser.alloc());
    'decls: while parser.has_more() {
        decls.push(decl(parser)?)?;
    }
    Ok(decls)
}

/// enum | record | fn | atomic | network | top
fn decl(parser: &mut Parser) -> Result<Decl, ParseError>
    ensures took { Reads decl_tokens decl_span (IsOk is_decl) parser.old result parser.new }
    ensures same { Meets (want.decl ∷ []) parser.old result parser.new }
{
    if parser.next_is_key(Key::Enum) {
        return an_enum(parser);
    }
    if parser.next_is_key(Key::Record) {
        return record(parser);
    }
    if parser.next_is_key(Key::Fn) {
        return function(parser);
    }
    if parser.next_is_key(Key::Atomic) {
        return atomic(parser);
    }
    if parser.next_is_key(Key::Network) {
        return network(parser);
    }
    top(parser)
}

/// "enum" id "{" id {"," id} "}"
fn an_enum(parser: &mut Parser) -> Result<Decl, ParseError>
    ensures took { Reads decl_tokens decl_span (IsOk is_decl) parser.old result parser.new }
    ensures same { Meets (want.word key.Enum ∷ want.name ∷ want.mark sign.OpenBrace ∷ want.name ∷ want.more_names ∷ want.mark sign.CloseBrace ∷ []) parser.old result parser.new }
{
    parser.key(Key::Enum)?;
    let name = parser.name()?;
    parser.sign(Sign::OpenBrace)?;
    let variants = ids(parser)?;
    parser.sign(Sign::CloseBrace)?;
    Ok(Decl::Enum { name, variants })
}

/// id {"," id}
fn ids(parser: &mut Parser) -> Result<Items<Id>, ParseError>
    ensures took { Reads (commas_by id_tokens) (spans_by id_span) (SomeOk any_ok) parser.old result parser.new }
    ensures same { Meets (want.name ∷ want.more_names ∷ []) parser.old result parser.new }
{
    let mut ids = Items::new(parser.alloc());
    ids.push(parser.name()?)?;
    'ids: while parser.takes_sign(Sign::Comma) {
        ids.push(parser.name()?)?;
    }
    Ok(ids)
}

/// "record" id "{" id ":" type {"," id ":" type} "}"
fn record(parser: &mut Parser) -> Result<Decl, ParseError>
    ensures took { Reads decl_tokens decl_span (IsOk is_decl) parser.old result parser.new }
    ensures same { Meets (want.word key.Record ∷ want.name ∷ want.mark sign.OpenBrace ∷ (typed ++ want.more_typed ∷ want.mark sign.CloseBrace ∷ [])) parser.old result parser.new }
{
    parser.key(Key::Record)?;
    let name = parser.name()?;
    parser.sign(Sign::OpenBrace)?;
    let fields = some_typed(parser)?;
    parser.sign(Sign::CloseBrace)?;
    Ok(Decl::Rec { name, fields })
}

/// id ":" type {"," id ":" type}
fn some_typed(parser: &mut Parser) -> Result<Items<Typed>, ParseError>
    ensures took { Reads (commas_by typed_tokens) (spans_by typed_span) (SomeOk any_ok) parser.old result parser.new }
    ensures same { Meets (typed ++ want.more_typed ∷ []) parser.old result parser.new }
{
    let mut all = Items::new(parser.alloc());
    all.push(typed(parser)?)?;
    'all: while parser.takes_sign(Sign::Comma) {
        all.push(typed(parser)?)?;
    }
    Ok(all)
}

/// id ":" type
fn typed(parser: &mut Parser) -> Result<Typed, ParseError>
    ensures took { Reads typed_tokens typed_span Any parser.old result parser.new }
    ensures same { Meets typed parser.old result parser.new }
{
    let name = parser.name()?;
    parser.sign(Sign::Colon)?;
    let ty = parser.type_name()?;
    Ok(Typed { name, ty })
}

/// "(" [id ":" type {"," id ":" type}] ")"
fn params(parser: &mut Parser) -> Result<Items<Typed>, ParseError>
    ensures took { Reads params_tokens (λ params. args_span (map typed_span params)) Any parser.old result parser.new }
    ensures same { Meets params parser.old result parser.new }
{
    parser.sign(Sign::OpenParen)?;
    if parser.takes_sign(Sign::CloseParen) {
        return Ok(Items::new(parser.alloc()));
    }
    let params = some_typed(parser)?;
    parser.sign(Sign::CloseParen)?;
    Ok(params)
}

/// "fn" id params "->" type "{" {stmt} "return" expr ";" "}"
fn function(parser: &mut Parser) -> Result<Decl, ParseError>
    ensures took { Reads decl_tokens decl_span (IsOk is_decl) parser.old result parser.new }
    ensures same { Meets (want.word key.Fn ∷ want.name ∷ (params ++ want.mark sign.Arrow ∷ want.ty ∷ function_body)) parser.old result parser.new }
{
    parser.key(Key::Fn)?;
    let name = parser.name()?;
    let params = params(parser)?;
    parser.sign(Sign::Arrow)?;
    let ty = parser.type_name()?;
    let (stmts, value) = function_body(parser)?;
    Ok(Decl::Func {
        name,
        params,
        result: ty,
        stmts,
        value,
    })
}

/// "{" {stmt} "return" expr ";" "}"
fn function_body(parser: &mut Parser) -> Result<(Items<Stmt>, Expr), ParseError>
    ensures took { Reads (λ own. result_tokens own.0 own.1) (λ own. result_span own.0 own.1) ResultOk parser.old result parser.new }
    ensures same { Meets function_body parser.old result parser.new }
{
    parser.sign(Sign::OpenBrace)?;
    let stmts = stmts(parser)?;
    parser.key(Key::Return)?;
    let value = parser.expr()?;
    parser.sign(Sign::Semicolon)?;
    parser.sign(Sign::CloseBrace)?;
    Ok((stmts, value.into_inner()))
}

/// "atomic" id params "{" body "}"
fn atomic(parser: &mut Parser) -> Result<Decl, ParseError>
    ensures took { Reads decl_tokens decl_span (IsOk is_decl) parser.old result parser.new }
    ensures same { Meets (want.word key.Atomic ∷ want.name ∷ (params ++ want.mark sign.OpenBrace ∷ (body ++ want.mark sign.CloseBrace ∷ []))) parser.old result parser.new }
{
    let at = parser.key(Key::Atomic)?;
    let name = parser.name()?;
    let params = params(parser)?;
    parser.sign(Sign::OpenBrace)?;
    let body = body(parser)?;
    parser.sign(Sign::CloseBrace)?;
    let body = body.into_inner();
    Ok(Decl::Atomic {
        at,
        name,
        params,
        body,
    })
}

/// "network" id params "{" {port} "exec" "{" body "structure" items "}" "}"
fn network(parser: &mut Parser) -> Result<Decl, ParseError>
    ensures took { Reads decl_tokens decl_span (IsOk is_decl) parser.old result parser.new }
    ensures same { Meets (want.word key.Network ∷ want.name ∷ (params ++ network_body)) parser.old result parser.new }
{
    let at = parser.key(Key::Network)?;
    let name = parser.name()?;
    let params = params(parser)?;
    let (ports, (exec_at, body, items)) = network_body(parser)?;
    let body = body.into_inner();
    Ok(Decl::Network {
        at,
        name,
        params,
        ports,
        exec_at,
        body,
        items,
    })
}

/// "{" {port} "exec" .. "}"
fn network_body(
    parser: &mut Parser,
) -> Result<(Items<PortDecl>, (u32, Boxed<Body>, Items<Item>)), ParseError>
    ensures took { Reads network_spelled network_placed NetworkOk parser.old result parser.new }
    ensures same { Meets network_body parser.old result parser.new }
{
    parser.sign(Sign::OpenBrace)?;
    let ports = ports(parser)?;
    let exec = executive(parser)?;
    parser.sign(Sign::CloseBrace)?;
    Ok((ports, exec))
}

/// "exec" "{" body "structure" items "}"
fn executive(parser: &mut Parser) -> Result<(u32, Boxed<Body>, Items<Item>), ParseError>
    ensures took { Reads exec_spelled exec_placed ExecOk parser.old result parser.new }
    ensures same { Meets executive parser.old result parser.new }
{
    let at = parser.key(Key::Exec)?;
    parser.sign(Sign::OpenBrace)?;
    let body = body(parser)?;
    let items = structure(parser)?;
    Ok((at, body, items))
}

/// "structure" items "}"
fn structure(parser: &mut Parser) -> Result<Items<Item>, ParseError>
    ensures took { Reads structure_tokens structure_span (AllOk is_item) parser.old result parser.new }
    ensures same { Meets structure parser.old result parser.new }
{
    parser.key(Key::Structure)?;
    let items = items_block(parser)?;
    parser.sign(Sign::CloseBrace)?;
    Ok(items)
}

/// "top" id args ";"
fn top(parser: &mut Parser) -> Result<Decl, ParseError>
    ensures took { Reads decl_tokens decl_span (IsOk is_decl) parser.old result parser.new }
    ensures same { Meets (want.word key.Top ∷ want.name ∷ (args ++ want.mark sign.Semicolon ∷ [])) parser.old result parser.new }
{
    let at = parser.key(Key::Top)?;
    let name = parser.name()?;
    let args = parser.arguments()?;
    parser.sign(Sign::Semicolon)?;
    Ok(Decl::Top { at, name, args })
}

/// {port}
fn ports(parser: &mut Parser) -> Result<Items<PortDecl>, ParseError>
    ensures took { ReadsAll (joined_by port_tokens) (all_by port_span) (AllOk any_ok) parser.old result parser.new }
    ensures same { Meets (want.ports ∷ []) parser.old result parser.new }
{
    let mut ports = Items::new(parser.alloc());
    'ports: while begins_port(parser) {
        ports.push(port(parser)?)?;
    }
    Ok(ports)
}

fn begins_port(parser: &Parser) -> bool
    ensures { result ≡ next_is begins_port parser.now.1 }
{
    parser.next_is_key(Key::In) || parser.next_is_key(Key::Out)
}

/// ("in" | "out") id ":" type ";"
fn port(parser: &mut Parser) -> Result<PortDecl, ParseError>
    ensures took { Reads port_tokens port_span (IsOk any_ok) parser.old result parser.new }
    ensures same { Meets (want.port ∷ []) parser.old result parser.new }
{
    if parser.takes_key(Key::Out) {
        let Typed { name, ty } = typed(parser)?;
        parser.sign(Sign::Semicolon)?;
        return Ok(PortDecl {
            out: true,
            name,
            ty,
        });
    }
    parser.key(Key::In)?;
    let Typed { name, ty } = typed(parser)?;
    parser.sign(Sign::Semicolon)?;
    Ok(PortDecl {
        out: false,
        name,
        ty,
    })
}

/// {state}
fn states(parser: &mut Parser) -> Result<Items<StateDecl>, ParseError>
    ensures took { ReadsAll (joined_by state_tokens) (all_by state_span) (AllOk is_state) parser.old result parser.new }
    ensures same { Meets (want.states ∷ []) parser.old result parser.new }
{
    let mut states = Items::new(parser.alloc());
    'states: while parser.next_is_key(Key::State) {
        states.push(state(parser)?)?;
    }
    Ok(states)
}

/// "state" id ":" type "=" expr ";"
fn state(parser: &mut Parser) -> Result<StateDecl, ParseError>
    ensures took { Reads state_tokens state_span (IsOk is_state) parser.old result parser.new }
    ensures same { Meets (want.word key.State ∷ (typed ++ want.mark sign.Equal ∷ want.expr ∷ want.mark sign.Semicolon ∷ [])) parser.old result parser.new }
{
    parser.key(Key::State)?;
    let Typed { name, ty } = typed(parser)?;
    parser.sign(Sign::Equal)?;
    let value = parser.expr()?;
    parser.sign(Sign::Semicolon)?;
    let value = value.into_inner();
    Ok(StateDecl { name, ty, value })
}

/// {port} {state} "advance" expr ";" and the blocks of the phases
fn body(parser: &mut Parser) -> Result<Boxed<Body>, ParseError>
    ensures took { Reads body_tokens body_span (IsOk is_body) parser.old result parser.new }
    ensures same { Meets body parser.old result parser.new }
{
    let ports = ports(parser)?;
    let states = states(parser)?;
    let (advance_at, advance) = advance(parser)?;
    let (output, internal, external, confluent) = phases(parser)?;
    let body = Body {
        ports,
        states,
        advance_at,
        advance: advance.into_inner(),
        output,
        internal,
        external,
        confluent,
    };
    let body = Boxed::new(parser.alloc(), body)?;
    Ok(body)
}

/// "advance" expr ";"
fn advance(parser: &mut Parser) -> Result<(u32, Boxed<Expr>), ParseError>
    ensures took { Reads (λ own. advance_tokens own.1) (λ own. advance_span own.0 own.1) (λ own. is_expr own.1 ≡ true) parser.old result parser.new }
    ensures same { Meets (want.word key.Advance ∷ want.expr ∷ want.mark sign.Semicolon ∷ []) parser.old result parser.new }
{
    let at = parser.key(Key::Advance)?;
    let advance = parser.expr()?;
    parser.sign(Sign::Semicolon)?;
    Ok((at, advance))
}

/// ["output" block] ["internal" block] ["external" block] ["confluent" block]
fn phases(
    parser: &mut Parser,
) -> Result<(Option<Phase>, Option<Phase>, Option<Phase>, Option<Phase>), ParseError>
    ensures took { ReadsAll phases_spelled phases_placed PhasesOk parser.old result parser.new }
    ensures same { Meets (want.phase key.Output ∷ want.phase key.Internal ∷ want.phase key.External ∷ want.phase key.Confluent ∷ []) parser.old result parser.new }
{
    let output = phase(parser, Key::Output)?;
    let internal = phase(parser, Key::Internal)?;
    let external = phase(parser, Key::External)?;
    let confluent = phase(parser, Key::Confluent)?;
    Ok((output, internal, external, confluent))
}

/// The block of a phase behind the phase's word, if it is written.
fn phase(parser: &mut Parser, begins: Key) -> Result<Option<Phase>, ParseError>
    ensures took { ReadsAll (phase_tokens begins) phase_span (IsOk is_phase) parser.old result parser.new }
    ensures same { Meets (want.phase begins ∷ []) parser.old result parser.new }
{
    let at = parser.at();
    if !parser.takes_key(begins) {
        return Ok(None);
    }
    let stmts = block(parser)?;
    Ok(Some(Phase { at, stmts }))
}

//! Statements, read from their tokens.

ghost use Rattle.std.specs.Prelude.{◌≡◌, ◌<◌, ◌∷◌, [], true, false, map, OnOk};
ghost use Rattle.dsde_syntax.specs.Grammar.{block, set_tokens, for_tokens, if_tokens, stmt_tokens, stmt_arm_tokens};
ghost use Rattle.dsde_syntax.specs.Places.{block_span, set_span, for_span, stmt_span, stmt_arm_span};
ghost use Rattle.dsde_syntax.specs.Levels.{is_expr, is_stmt, is_stmt_arm};
ghost use Rattle.dsde_words.specs.declared.key.Key.TheVariants as key;
ghost use Rattle.dsde_syntax.specs.declared.token.Sign.TheVariants as sign;
ghost use Rattle.dsde_parser_grammar.specs.Want as want;
ghost use Rattle.dsde_parser_grammar.specs.Steps.{set, block as block_wants, loop_rest, arm_rest};
ghost use Rattle.dsde_parser_expressions.specs.Follows.{Leads, Meets, next_is, begins_stmt, is_else_if};
ghost use Rattle.dsde_parser_expressions.specs.Took.{Reads, ReadsAll};
ghost use Rattle.dsde_parser_expressions.specs.Parts.{AllOk, SomeOk, IsOk, joined_by, all_by, elses_by, spans_by};
ghost use Rattle.dsde_parser_statements.specs.Parts.{if_span, last_stmts_tokens, last_stmts_span, last_stmts_ok};

use dsde_parser_expressions::{ParseError, Parser};
use dsde_syntax::{Boxed, Expr, Id, Items, Key, Sign, Stmt, StmtArm};

/// id "=" expr ";"
pub(crate) fn set(parser: &mut Parser) -> Result<(Id, Expr), ParseError>
    ensures took { Reads (λ set. set_tokens set.0 set.1) (λ set. set_span set.0 set.1) (λ set. is_expr set.1 ≡ true) parser.old result parser.new }
    ensures same { Meets set parser.old result parser.new }
{
    let name = parser.name()?;
    parser.sign(Sign::Equal)?;
    let value = parser.expr()?;
    parser.sign(Sign::Semicolon)?;
    Ok((name, value.into_inner()))
}

/// "for" id "in" expr
pub(crate) fn for_in(parser: &mut Parser) -> Result<(Id, Boxed<Expr>), ParseError>
    ensures took { Reads (λ own. for_tokens own.0 own.1) (λ own. for_span own.0 own.1) (λ own. is_expr own.1 ≡ true) parser.old result parser.new }
    ensures same { Meets (want.word key.For ∷ want.name ∷ want.word key.In ∷ want.expr ∷ []) parser.old result parser.new }
{
    parser.key(Key::For)?;
    let name = parser.name()?;
    parser.key(Key::In)?;
    let list = parser.expr()?;
    Ok((name, list))
}

/// "if" expr
pub(crate) fn if_cond(parser: &mut Parser) -> Result<Boxed<Expr>, ParseError>
    ensures took { Reads if_tokens if_span (IsOk is_expr) parser.old result parser.new }
    ensures same { Meets (want.word key.If ∷ want.expr ∷ []) parser.old result parser.new }
{
    parser.key(Key::If)?;
    let cond = parser.expr()?;
    Ok(cond)
}

/// "{" {stmt} "}"
#[cycle(read_stmt)]
pub fn block(parser: &mut Parser) -> Result<Items<Stmt>, ParseError>
    ensures took { Reads (λ stmts. block (map stmt_tokens stmts)) (λ stmts. block_span (map stmt_span stmts)) (AllOk is_stmt) parser.old result parser.new }
    ensures same { Meets (block_wants want.stmts) parser.old result parser.new }
{
    parser.sign(Sign::OpenBrace)?;
    let stmts = stmts(parser)?;
    parser.sign(Sign::CloseBrace)?;
    Ok(stmts)
}

/// {stmt}
#[cycle(read_stmt)]
pub fn stmts(parser: &mut Parser) -> Result<Items<Stmt>, ParseError>
    ensures took { ReadsAll (joined_by stmt_tokens) (all_by stmt_span) (AllOk is_stmt) parser.old result parser.new }
    ensures same { Meets (want.stmts ∷ []) parser.old result parser.new }
{
    let mut stmts = Items::new(parser.alloc());
    'stmts: while begins_stmt(parser) {
        stmts.push(stmt(parser)?)?;
    }
    Ok(stmts)
}

/// Whether a token comes next that a statement begins with.
fn begins_stmt(parser: &Parser) -> bool
    ensures { result ≡ next_is begins_stmt parser.now.1 }
{
    parser.next_is_name()
        || parser.next_is_key(Key::Let)
        || parser.next_is_key(Key::Var)
        || parser.next_is_key(Key::Send)
        || parser.next_is_key(Key::If)
        || parser.next_is_key(Key::For)
}

/// id "=" .. | "send" .. | "if" .. | "for" .. | ("let" | "var") ..
#[cycle(read_stmt)]
fn stmt(parser: &mut Parser) -> Result<Stmt, ParseError>
    ensures took { Reads stmt_tokens stmt_span (IsOk is_stmt) parser.old result parser.new }
    ensures same { Meets (want.stmt ∷ []) parser.old result parser.new }
{
    if parser.next_is_name() {
        return assign(parser);
    }
    if parser.next_is_key(Key::Send) {
        return send(parser);
    }
    if parser.next_is_key(Key::If) {
        return stmt_choice(parser);
    }
    if parser.next_is_key(Key::For) {
        return stmt_loop(parser);
    }
    if parser.next_is_key(Key::Var) {
        return var_stmt(parser);
    }
    let_stmt(parser)
}

/// "var" id "=" expr ";"
fn var_stmt(parser: &mut Parser) -> Result<Stmt, ParseError>
    ensures took { Reads stmt_tokens stmt_span (IsOk is_stmt) parser.old result parser.new }
    ensures same { Meets (want.word key.Var ∷ set) parser.old result parser.new }
{
    parser.key(Key::Var)?;
    let (name, value) = set(parser)?;
    Ok(Stmt::Let {
        mutable: true,
        name,
        value,
    })
}

/// "let" id "=" expr ";"
fn let_stmt(parser: &mut Parser) -> Result<Stmt, ParseError>
    ensures took { Reads stmt_tokens stmt_span (IsOk is_stmt) parser.old result parser.new }
    ensures same { Meets (want.word key.Let ∷ set) parser.old result parser.new }
{
    parser.key(Key::Let)?;
    let (name, value) = set(parser)?;
    Ok(Stmt::Let {
        mutable: false,
        name,
        value,
    })
}

/// id "=" expr ";"
fn assign(parser: &mut Parser) -> Result<Stmt, ParseError>
    ensures took { Reads stmt_tokens stmt_span (IsOk is_stmt) parser.old result parser.new }
    ensures same { Meets set parser.old result parser.new }
{
    let (name, value) = set(parser)?;
    Ok(Stmt::Set { name, value })
}

/// "send" id "(" expr ")" ";"
fn send(parser: &mut Parser) -> Result<Stmt, ParseError>
    ensures took { Reads stmt_tokens stmt_span (IsOk is_stmt) parser.old result parser.new }
    ensures same { Meets (want.word key.Send ∷ want.name ∷ want.mark sign.OpenParen ∷ want.expr ∷ want.mark sign.CloseParen ∷ want.mark sign.Semicolon ∷ []) parser.old result parser.new }
{
    parser.key(Key::Send)?;
    let port = parser.name()?;
    parser.sign(Sign::OpenParen)?;
    let value = parser.expr()?;
    parser.sign(Sign::CloseParen)?;
    parser.sign(Sign::Semicolon)?;
    Ok(Stmt::Send {
        port,
        value: value.into_inner(),
    })
}

/// "for" id "in" expr block
#[cycle(read_stmt)]
fn stmt_loop(parser: &mut Parser) -> Result<Stmt, ParseError>
    ensures took { Reads stmt_tokens stmt_span (IsOk is_stmt) parser.old result parser.new }
    ensures same { Meets (want.word key.For ∷ loop_rest want.stmts) parser.old result parser.new }
{
    let (name, list) = for_in(parser)?;
    let body = block(parser)?;
    let list = list.into_inner();
    Ok(Stmt::For { name, list, body })
}

/// "if" expr block {"else" "if" expr block} ["else" block]
#[cycle(read_stmt)]
fn stmt_choice(parser: &mut Parser) -> Result<Stmt, ParseError>
    ensures took { Reads stmt_tokens stmt_span (IsOk is_stmt) parser.old result parser.new }
    ensures same { Meets (want.word key.If ∷ arm_rest want.stmts want.other_stmts) parser.old result parser.new }
{
    let arms = stmt_arms(parser)?;
    let other = last_stmts(parser)?;
    Ok(Stmt::If { arms, other })
}

/// "if" expr block {"else" "if" expr block}
#[cycle(read_stmt)]
fn stmt_arms(parser: &mut Parser) -> Result<Items<StmtArm>, ParseError>
    ensures took { Reads (elses_by stmt_arm_tokens) (spans_by stmt_arm_span) (SomeOk is_stmt_arm) parser.old result parser.new }
    ensures same { Leads (want.word key.If ∷ arm_rest want.stmts want.other_stmts) (want.other_stmts ∷ []) parser.old result parser.new }
    ensures ended { OnOk result (is_else_if parser.new.1 ≡ false) }
{
    let mut arms = Items::new(parser.alloc());
    arms.push(stmt_arm(parser)?)?;
    'arms: while parser.next_is_else_if() {
        parser.key(Key::Else)?;
        arms.push(stmt_arm(parser)?)?;
    }
    Ok(arms)
}

/// "if" expr block
#[cycle(read_stmt)]
fn stmt_arm(parser: &mut Parser) -> Result<StmtArm, ParseError>
    ensures took { Reads stmt_arm_tokens stmt_arm_span (IsOk is_stmt_arm) parser.old result parser.new }
    ensures same { Meets (want.word key.If ∷ want.expr ∷ block_wants want.stmts) parser.old result parser.new }
{
    let cond = if_cond(parser)?;
    let body = block(parser)?;
    let cond = cond.into_inner();
    Ok(StmtArm { cond, body })
}

/// ["else" block]
#[cycle(read_stmt)]
fn last_stmts(parser: &mut Parser) -> Result<Option<Items<Stmt>>, ParseError>
    ensures took { ReadsAll last_stmts_tokens last_stmts_span last_stmts_ok parser.old result parser.new }
    ensures same { is_else_if parser.old.1 ≡ false → Meets (want.other_stmts ∷ []) parser.old result parser.new }
{
    if !parser.takes_key(Key::Else) {
        return Ok(None);
    }
    Ok(Some(block(parser)?))
}

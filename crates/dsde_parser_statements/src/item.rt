//! The items of a structure, read from their tokens. A part that is large stays on the heap while
//! more is read behind it.

ghost use Rattle.std.specs.Prelude.{◌≡◌, ◌<◌, ◌∷◌, ◌++◌, [], true, false, map, OnOk};
ghost use Rattle.dsde_syntax.specs.Grammar.{block, optional, component_tokens, entry_mark, end_tokens, end_part_tokens, via_tokens, via_key_tokens, item_tokens, item_arm_tokens};
ghost use Rattle.dsde_syntax.specs.Places.{token, block_span, written_span, component_span, end_span, end_part_span, via_span, via_key_span, item_span, item_arm_span};
ghost use Rattle.dsde_syntax.specs.Levels.{if_written, is_expr, is_index, is_end, is_via, is_item, is_item_arm};
ghost use Rattle.dsde_words.specs.declared.key.Key.TheVariants as key;
ghost use Rattle.dsde_syntax.specs.declared.token.Sign.TheVariants as sign;
ghost use Rattle.dsde_parser_grammar.specs.Want as want;
ghost use Rattle.dsde_parser_grammar.specs.Steps.{set, args, block as block_wants, loop_rest, arm_rest};
ghost use Rattle.dsde_parser_expressions.specs.Follows.{Leads, Meets, next_is, begins_item, is_else_if};
ghost use Rattle.dsde_parser_expressions.specs.Took.{Reads, ReadsAll, Any};
ghost use Rattle.dsde_parser_expressions.specs.Parts.{AllOk, SomeOk, IsOk, joined_by, all_by, elses_by, spans_by};
ghost use Rattle.dsde_parser_statements.specs.Parts.{is_end_part, is_via_key, made_tokens, made_span, via_names_tokens, via_names_span, via_body_tokens, via_body_span, ends_tokens, ends_span, EndsOk, target_tokens, target_span, last_via_tokens, last_via_span, last_items_tokens, last_items_span, last_items_ok};

use crate::stmt::{for_in, if_cond, set};
use dsde_parser_expressions::{ParseError, Parser};
use dsde_syntax::{
    Boxed, Bracket, End, EndPart, Expr, Id, Item, ItemArm, Items, Key, Sign, ViaKey, ViaPart,
};

/// "{" {item} "}"
#[cycle(read_item)]
pub fn items_block(parser: &mut Parser) -> Result<Items<Item>, ParseError>
    ensures took { Reads (λ items. block (map item_tokens items)) (λ items. block_span (map item_span items)) (AllOk is_item) parser.old result parser.new }
    ensures same { Meets (block_wants want.items) parser.old result parser.new }
{
    parser.sign(Sign::OpenBrace)?;
    let items = items(parser)?;
    parser.sign(Sign::CloseBrace)?;
    Ok(items)
}

/// {item}
#[cycle(read_item)]
fn items(parser: &mut Parser) -> Result<Items<Item>, ParseError>
    ensures took { ReadsAll (joined_by item_tokens) (all_by item_span) (AllOk is_item) parser.old result parser.new }
    ensures same { Meets (want.items ∷ []) parser.old result parser.new }
{
    let mut items = Items::new(parser.alloc());
    'items: while begins_item(parser) {
        items.push(item(parser)?)?;
    }
    Ok(items)
}

/// Whether a token comes next that an item begins with.
fn begins_item(parser: &Parser) -> bool
    ensures { result ≡ next_is begins_item parser.now.1 }
{
    parser.next_is_key(Key::Comp)
        || parser.next_is_key(Key::Link)
        || parser.next_is_key(Key::Let)
        || parser.next_is_key(Key::If)
        || parser.next_is_key(Key::For)
}

/// "comp" .. | "link" .. | "if" .. | "for" .. | "let" ..
#[cycle(read_item)]
fn item(parser: &mut Parser) -> Result<Item, ParseError>
    ensures took { Reads item_tokens item_span (IsOk is_item) parser.old result parser.new }
    ensures same { Meets (want.item ∷ []) parser.old result parser.new }
{
    if parser.next_is_key(Key::Comp) {
        return comp(parser);
    }
    if parser.next_is_key(Key::Link) {
        return link(parser);
    }
    if parser.next_is_key(Key::If) {
        return item_choice(parser);
    }
    if parser.next_is_key(Key::For) {
        return item_loop(parser);
    }
    let_item(parser)
}

/// "let" id "=" expr ";"
fn let_item(parser: &mut Parser) -> Result<Item, ParseError>
    ensures took { Reads item_tokens item_span (IsOk is_item) parser.old result parser.new }
    ensures same { Meets (want.word key.Let ∷ set) parser.old result parser.new }
{
    parser.key(Key::Let)?;
    let (name, value) = set(parser)?;
    Ok(Item::Let { name, value })
}

/// "comp" id ["[" expr "]"] ("is" | ":") id args ";"
fn comp(parser: &mut Parser) -> Result<Item, ParseError>
    ensures took { Reads item_tokens item_span (IsOk is_item) parser.old result parser.new }
    ensures same { Meets (want.word key.Comp ∷ want.name ∷ want.index ∷ want.entry_mark ∷ want.name ∷ (args ++ want.mark sign.Semicolon ∷ [])) parser.old result parser.new }
{
    let at = parser.key(Key::Comp)?;
    let named = Boxed::new(parser.alloc(), component(parser)?)?;
    let (soft, model, args) = made(parser)?;
    let (name, index) = named.into_inner();
    Ok(Item::Comp {
        at,
        name,
        index,
        soft,
        model,
        args,
    })
}

/// ("is" | ":") id args ";"
fn made(parser: &mut Parser) -> Result<(bool, Id, Items<Expr>), ParseError>
    ensures took { Reads made_tokens made_span (λ own. AllOk is_expr own.2) parser.old result parser.new }
    ensures same { Meets (want.entry_mark ∷ want.name ∷ (args ++ want.mark sign.Semicolon ∷ [])) parser.old result parser.new }
{
    let soft = entry_mark(parser)?;
    let model = parser.name()?;
    let args = parser.arguments()?;
    parser.sign(Sign::Semicolon)?;
    Ok((soft, model, args))
}

/// "is" | ":"
fn entry_mark(parser: &mut Parser) -> Result<bool, ParseError>
    ensures took { Reads entry_mark (λ _. token) Any parser.old result parser.new }
    ensures same { Meets (want.entry_mark ∷ []) parser.old result parser.new }
{
    if parser.takes_sign(Sign::Colon) {
        return Ok(true);
    }
    parser.key(Key::Is)?;
    Ok(false)
}

/// id ["[" expr "]"]
fn component(parser: &mut Parser) -> Result<(Id, Option<Bracket>), ParseError>
    ensures took { Reads (λ own. component_tokens own.0 own.1) (λ own. component_span own.0 own.1) (λ own. is_index own.1 ≡ true) parser.old result parser.new }
    ensures same { Meets (want.name ∷ want.index ∷ []) parser.old result parser.new }
{
    let name = parser.name()?;
    let at = parser.at();
    if !parser.takes_sign(Sign::OpenBracket) {
        return Ok((name, None));
    }
    let value = parser.expr()?;
    parser.sign(Sign::CloseBracket)?;
    let value = value.into_inner();
    Ok((name, Some(Bracket { at, value })))
}

/// "link" end "->" end ["via" ..] ";"
fn link(parser: &mut Parser) -> Result<Item, ParseError>
    ensures took { Reads item_tokens item_span (IsOk is_item) parser.old result parser.new }
    ensures same { Meets (want.word key.Link ∷ want.end ∷ want.mark sign.Arrow ∷ want.end ∷ want.via ∷ want.mark sign.Semicolon ∷ []) parser.old result parser.new }
{
    let at = parser.key(Key::Link)?;
    let (from, to) = ends(parser)?;
    let via = last_via(parser)?;
    let from = from.into_inner();
    let to = to.into_inner();
    let via = unboxed(via);
    Ok(Item::Link { at, from, to, via })
}

/// end "->" end
fn ends(parser: &mut Parser) -> Result<(Boxed<End>, Boxed<End>), ParseError>
    ensures took { Reads ends_tokens ends_span EndsOk parser.old result parser.new }
    ensures same { Meets (want.end ∷ want.mark sign.Arrow ∷ want.end ∷ []) parser.old result parser.new }
{
    let from = end(parser)?;
    let to = target(parser)?;
    Ok((from, to))
}

/// "->" end
fn target(parser: &mut Parser) -> Result<Boxed<End>, ParseError>
    ensures took { Reads target_tokens target_span (IsOk is_end) parser.old result parser.new }
    ensures same { Meets (want.mark sign.Arrow ∷ want.end ∷ []) parser.old result parser.new }
{
    parser.sign(Sign::Arrow)?;
    end(parser)
}

/// ["via" ..] ";"
fn last_via(parser: &mut Parser) -> Result<Option<Boxed<ViaPart>>, ParseError>
    ensures took { Reads last_via_tokens last_via_span (IsOk (if_written is_via)) parser.old result parser.new }
    ensures same { Meets (want.via ∷ want.mark sign.Semicolon ∷ []) parser.old result parser.new }
{
    let via = via(parser)?;
    parser.sign(Sign::Semicolon)?;
    Ok(via)
}

/// ("net" | "exec" | id ["[" expr "]"]) "." id
fn end(parser: &mut Parser) -> Result<Boxed<End>, ParseError>
    ensures took { Reads end_tokens end_span (IsOk is_end) parser.old result parser.new }
    ensures same { Meets (want.end ∷ []) parser.old result parser.new }
{
    let part = Boxed::new(parser.alloc(), end_part(parser)?)?;
    parser.sign(Sign::Dot)?;
    let port = parser.name()?;
    let part = part.into_inner();
    let end = Boxed::new(parser.alloc(), End { part, port })?;
    Ok(end)
}

/// "net" | "exec" | id ["[" expr "]"]
fn end_part(parser: &mut Parser) -> Result<EndPart, ParseError>
    ensures took { Reads end_part_tokens end_part_span (IsOk is_end_part) parser.old result parser.new }
    ensures same { Leads (want.end ∷ []) (want.mark sign.Dot ∷ want.name ∷ []) parser.old result parser.new }
{
    if parser.takes_key(Key::Net) {
        return Ok(EndPart::Net);
    }
    if parser.takes_key(Key::Exec) {
        return Ok(EndPart::Exec);
    }
    let (name, index) = component(parser)?;
    Ok(EndPart::Kid { name, index })
}

/// ["via" "(" id ["," id "=" expr] ")" "=>" expr]
fn via(parser: &mut Parser) -> Result<Option<Boxed<ViaPart>>, ParseError>
    ensures took { ReadsAll (optional via_tokens) (written_span via_span) (IsOk (if_written is_via)) parser.old result parser.new }
    ensures same { Meets (want.via ∷ []) parser.old result parser.new }
{
    if !parser.takes_key(Key::Via) {
        return Ok(None);
    }
    let (value, key) = via_names(parser)?;
    let body = via_body(parser)?.into_inner();
    let key = unboxed(key);
    let via = Boxed::new(parser.alloc(), ViaPart { value, key, body })?;
    Ok(Some(via))
}

/// "(" id ["," id "=" expr] ")"
fn via_names(parser: &mut Parser) -> Result<(Id, Option<Boxed<ViaKey>>), ParseError>
    ensures took { Reads via_names_tokens via_names_span (λ own. is_via_key own.1 ≡ true) parser.old result parser.new }
    ensures same { Meets (want.mark sign.OpenParen ∷ want.name ∷ want.via_key ∷ want.mark sign.CloseParen ∷ []) parser.old result parser.new }
{
    parser.sign(Sign::OpenParen)?;
    let value = parser.name()?;
    let key = via_key(parser)?;
    parser.sign(Sign::CloseParen)?;
    Ok((value, key))
}

/// "=>" expr
fn via_body(parser: &mut Parser) -> Result<Boxed<Expr>, ParseError>
    ensures took { Reads via_body_tokens via_body_span (IsOk is_expr) parser.old result parser.new }
    ensures same { Meets (want.mark sign.FatArrow ∷ want.expr ∷ []) parser.old result parser.new }
{
    parser.sign(Sign::FatArrow)?;
    let body = parser.expr()?;
    Ok(body)
}

/// ["," id "=" expr]
fn via_key(parser: &mut Parser) -> Result<Option<Boxed<ViaKey>>, ParseError>
    ensures took { ReadsAll (optional via_key_tokens) (written_span via_key_span) (IsOk is_via_key) parser.old result parser.new }
    ensures same { Meets (want.via_key ∷ []) parser.old result parser.new }
{
    if !parser.takes_sign(Sign::Comma) {
        return Ok(None);
    }
    let name = parser.name()?;
    parser.sign(Sign::Equal)?;
    let value = parser.expr()?.into_inner();
    let key = Boxed::new(parser.alloc(), ViaKey { name, value })?;
    Ok(Some(key))
}

/// What is on the heap, taken from there.
fn unboxed<T: Drop>(own: Option<Boxed<T>>) -> Option<T>
    ensures { result ≡ own }
{
    match own {
        Some(own) => Some(own.into_inner()),
        None => None,
    }
}

/// "for" id "in" expr items
#[cycle(read_item)]
fn item_loop(parser: &mut Parser) -> Result<Item, ParseError>
    ensures took { Reads item_tokens item_span (IsOk is_item) parser.old result parser.new }
    ensures same { Meets (want.word key.For ∷ loop_rest want.items) parser.old result parser.new }
{
    let (name, list) = for_in(parser)?;
    let body = items_block(parser)?;
    let list = list.into_inner();
    Ok(Item::For { name, list, body })
}

/// "if" expr items {"else" "if" expr items} ["else" items]
#[cycle(read_item)]
fn item_choice(parser: &mut Parser) -> Result<Item, ParseError>
    ensures took { Reads item_tokens item_span (IsOk is_item) parser.old result parser.new }
    ensures same { Meets (want.word key.If ∷ arm_rest want.items want.other_items) parser.old result parser.new }
{
    let arms = item_arms(parser)?;
    let other = last_items(parser)?;
    Ok(Item::If { arms, other })
}

/// "if" expr items {"else" "if" expr items}
#[cycle(read_item)]
fn item_arms(parser: &mut Parser) -> Result<Items<ItemArm>, ParseError>
    ensures took { Reads (elses_by item_arm_tokens) (spans_by item_arm_span) (SomeOk is_item_arm) parser.old result parser.new }
    ensures same { Leads (want.word key.If ∷ arm_rest want.items want.other_items) (want.other_items ∷ []) parser.old result parser.new }
    ensures ended { OnOk result (is_else_if parser.new.1 ≡ false) }
{
    let mut arms = Items::new(parser.alloc());
    arms.push(item_arm(parser)?)?;
    'arms: while parser.next_is_else_if() {
        parser.key(Key::Else)?;
        arms.push(item_arm(parser)?)?;
    }
    Ok(arms)
}

/// "if" expr items
#[cycle(read_item)]
fn item_arm(parser: &mut Parser) -> Result<ItemArm, ParseError>
    ensures took { Reads item_arm_tokens item_arm_span (IsOk is_item_arm) parser.old result parser.new }
    ensures same { Meets (want.word key.If ∷ want.expr ∷ block_wants want.items) parser.old result parser.new }
{
    let cond = if_cond(parser)?;
    let body = items_block(parser)?;
    let cond = cond.into_inner();
    Ok(ItemArm { cond, body })
}

/// ["else" items]
#[cycle(read_item)]
fn last_items(parser: &mut Parser) -> Result<Option<Items<Item>>, ParseError>
    ensures took { ReadsAll last_items_tokens last_items_span last_items_ok parser.old result parser.new }
    ensures same { is_else_if parser.old.1 ≡ false → Meets (want.other_items ∷ []) parser.old result parser.new }
{
    if !parser.takes_key(Key::Else) {
        return Ok(None);
    }
    Ok(Some(items_block(parser)?))
}

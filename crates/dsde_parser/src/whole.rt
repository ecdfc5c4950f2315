//! A whole model, read from its tokens.

ghost use Rattle.std.specs.Prelude.{◌≡◌, ◌<◌, ◌^◌, length, map, All, IfOk, IfErr, OnOk};
ghost use Rattle.dsde_syntax.specs.declared.token.Token.{Token};
ghost use Rattle.dsde_syntax.specs.Spelling.{HasToken};
ghost use Rattle.dsde_syntax.specs.Shape.{IsShaped};
ghost use Rattle.dsde_syntax.specs.Grammar.{tokens_of};
ghost use Rattle.dsde_parser_grammar.specs.Steps.{start, stop};
ghost use Rattle.dsde_parser.specs.Depth.{IsShallow, IsFirstDeep};
ghost use Rattle.dsde_parser_expressions.specs.Follows.{StopsBy};
ghost use Rattle.dsde_parser.specs.Refusal.{IsRefused};

use crate::depth::first_too_deep;
use dsde_parser_declarations::decls;
use dsde_parser_expressions::{ParseError, Parser};
use dsde_parser_grammar::stops_are_first_wrong;
use dsde_syntax::{Model, Token};
use std::alloc::Global;

/// The one shaped model that tokens spell, if nowhere more than 256 brackets or 512 conditions are
/// open.
///
/// `Syntax` comes at the first token that no model can have there, or at the end where the tokens
/// only begin a model; `Nested` at the first token at which 257 brackets or 513 conditions are open,
/// if nothing is wrong there or before. The places are indexes of tokens, their number for the end.
pub fn parse(alloc: Global, tokens: &[Token]) -> Result<Model, ParseError>
    requires few { length tokens.now < 2 ^ 32 }
    requires well_formed { All HasToken tokens.now }
    ensures shaped { IfOk result IsShaped }
    ensures spells { IfOk result (λ model. tokens_of model ≡ map (λ (token : Token). token.tok) tokens.now) }
    ensures shallow { OnOk result (IsShallow (map (λ (token : Token). token.tok) tokens.now)) }
    ensures refused { IfErr result (IsRefused (map (λ (token : Token). token.tok) tokens.now)) }
{
    // A law: where the parser stops is the first thing that is wrong.
    stops_are_first_wrong();
    match first_too_deep(alloc, tokens)? {
        Some(deep) => Err(parse_deep(alloc, tokens, deep)),
        None => parse_all(alloc, tokens),
    }
}

/// Why tokens give no model that stand too deep at an index.
fn parse_deep(alloc: Global, tokens: &[Token], deep: usize) -> ParseError
    requires few { length tokens.now < 2 ^ 32 }
    requires well_formed { All HasToken tokens.now }
    requires deep { IsFirstDeep (map (λ (token : Token). token.tok) tokens.now) deep }
    ensures { IsRefused (map (λ (token : Token). token.tok) tokens.now) result }
{
    stops_are_first_wrong();
    match parse_all(alloc, &tokens[..deep + 1]) {
        Ok(_) => ParseError::Nested(deep as u32),
        Err(ParseError::Syntax(at)) if at as usize > deep => ParseError::Nested(deep as u32),
        Err(ParseError::Syntax(at)) => ParseError::Syntax(at),
        Err(ParseError::Nested(at)) => ParseError::Nested(at),
        Err(ParseError::Memory) => ParseError::Memory,
    }
}

/// The model that tokens spell, however much is open.
fn parse_all(alloc: Global, tokens: &[Token]) -> Result<Model, ParseError>
    requires few { length tokens.now < 2 ^ 32 }
    requires well_formed { All HasToken tokens.now }
    ensures shaped { IfOk result IsShaped }
    ensures spells { IfOk result (λ model. tokens_of model ≡ map (λ (token : Token). token.tok) tokens.now) }
    ensures stopped { IfErr result (λ error. StopsBy error (stop start 0 (map (λ (token : Token). token.tok) tokens.now))) }
{
    let mut parser = Parser::new(alloc, tokens);
    let decls = decls(&mut parser)?;
    Ok(Model { decls })
}

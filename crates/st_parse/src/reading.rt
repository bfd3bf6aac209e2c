//! Reading expressions from left to right.

ghost use Rattle.std.specs.Prelude.{◌≤◌, ◌<◌, ◌≡◌, suc, IfOk};
ghost use Rattle.fb_lex.specs.Views.{tokens_of};
ghost use Rattle.fb_model.specs.StructuredTextGrammar.{levels, most_nested};
ghost use Rattle.fb_read.specs.Answers.{Gives};
ghost use Rattle.fb_tree.specs.Words.{word_of};
ghost use Rattle.fb_read.specs.Reading.{list_at};
ghost use Rattle.fb_words.specs.declared.mark.Mark.TheVariants as m;
ghost use Rattle.fb_tree.specs.Algorithms.{expr_of, exprs_of, link_of, links_of};
ghost use Rattle.st_parse.specs.ExpressionReading.{level_at, chained_at, nested_at, links_at, link_at, opened_at, negative_at, inverse_at, parentheses_at, element_at, call_at, named_at, unnamed_at, expression_at};

use crate::constant::{literal, number};
use crate::operator::{begins_link, continues, operator_at};
use fb_lex::Token;
use fb_read::{Stop, begins_name, begins_number, expect, next_is, next_offset, read_name};
use fb_tree::{Expr, Link, Name};
use fb_words::Mark;
use std::alloc::Global;

/// How many levels operators have.
const LEVELS: u8 = 7;

/// How deep brackets, calls and signs may nest.
const MOST_NESTED: u32 = 64;

/// The expression that stands first, and what is left behind it: IEC 61131-3 edition 3, 7.3.2.
///
/// Errors: `Memory`; `Syntax` at the first token that cannot stand there; `TooDeep` at the token that opens one nesting too many,
/// where 64 brackets, calls and signs may nest.
#[tactic(auto, unfolding(crate::specs::ExpressionReading::expression_at))]
pub fn expression(alloc: Global, tokens: &[Token]) -> Result<(Expr, &[Token]), Stop>
    ensures { Gives (λ x. (expr_of x.0, tokens_of x.1.now)) result (expression_at most_nested (tokens_of tokens.now)) }
{
    expression_below(alloc, tokens, LEVELS, MOST_NESTED)
}

// What stands behind the mark that opens one more nesting, and how many more may be opened there.
fn opened(tokens: &[Token], mark: Mark, depth: u32) -> Result<(&[Token], u32), Stop>
    ensures rest { Gives (λ x. tokens_of x.0.now) result (opened_at mark depth (tokens_of tokens.now)) }
    ensures left { IfOk result (λ x. suc x.1 ≡ depth) }
{
    if !next_is(tokens, mark) {
        return Err(Stop::Syntax(tokens.len()));
    }
    if depth == 0 {
        return Err(Stop::TooDeep(tokens.len()));
    }
    Ok((&tokens[1..], depth - 1))
}

// An expression whose operators are below a level; at 0 it is an operand, and so it is at each level where no operator stands behind it.
// So many more nestings may be opened in it.
#[cycle(read)]
fn expression_below(
    alloc: Global,
    tokens: &[Token],
    level: u8,
    depth: u32,
) -> Result<(Expr, &[Token]), Stop>
    requires { level ≤ 7 }
    ensures { Gives (λ x. (expr_of x.0, tokens_of x.1.now)) result (level_at (nested_at (suc depth)) level (tokens_of tokens.now)) }
{
    let (first, rest) = operand(alloc, tokens, depth)?;
    if !continues(rest) {
        return Ok((first, rest));
    }
    chained(alloc, first, rest, level, depth)
}

// What an operand becomes with the operators below a level that stand behind it.
#[cycle(read)]
#[tactic(auto, unfolding(crate::specs::ExpressionReading::chained_at))]
fn chained(
    alloc: Global,
    first: Expr,
    tokens: &[Token],
    level: u8,
    depth: u32,
) -> Result<(Expr, &[Token]), Stop>
    requires { level ≤ 7 }
    ensures { Gives (λ x. (expr_of x.0, tokens_of x.1.now)) result (chained_at (nested_at (suc depth)) level (expr_of first) (tokens_of tokens.now)) }
{
    if level == 0 {
        return Ok((first, tokens));
    }
    let (whole, rest) = chained(alloc, first, tokens, level - 1, depth)?;
    if !begins_link(rest, level - 1) {
        return Ok((whole, rest));
    }
    let (links, rest) = links(alloc, rest, level - 1, depth)?;
    Ok((Expr::Chain(Box::new(alloc, whole)?, links), rest))
}

// Operators of a level with their second operands, while one stands next.
#[cycle(read)]
fn links(
    alloc: Global,
    tokens: &[Token],
    level: u8,
    depth: u32,
) -> Result<(Vec<Link>, &[Token]), Stop>
    requires { level < 7 }
    ensures { Gives (λ x. (links_of x.0.items, tokens_of x.1.now)) result (links_at level (level_at (nested_at (suc depth)) level) (tokens_of tokens.now)) }
{
    let mut links = Vec::new(alloc);
    let mut rest = tokens;
    for _ in 0..tokens.len() {
        if !begins_link(rest, level) {
            return Ok((links, rest));
        }
        let (link, after) = link(alloc, rest, level, depth)?;
        links.push(link)?;
        rest = after;
    }
    Ok((links, rest))
}

#[cycle(read)]
#[tactic(auto, unfolding(crate::specs::ExpressionReading::link_at))]
fn link(alloc: Global, tokens: &[Token], level: u8, depth: u32) -> Result<(Link, &[Token]), Stop>
    requires { level < 7 }
    ensures { Gives (λ x. (link_of x.0, tokens_of x.1.now)) result (link_at level (level_at (nested_at (suc depth)) level) (tokens_of tokens.now)) }
{
    let Some((operator, at)) = operator_at(tokens, level) else {
        return Err(Stop::Syntax(tokens.len()));
    };
    let (operand, rest) = expression_below(alloc, &tokens[1..], level, depth)?;
    let link = Link {
        operator,
        at,
        operand,
    };
    Ok((link, rest))
}

#[cycle(read)]
#[tactic(auto, unfolding(crate::specs::ExpressionReading::nested_at, crate::specs::ExpressionReading::operand_of))]
fn operand(alloc: Global, tokens: &[Token], depth: u32) -> Result<(Expr, &[Token]), Stop>
    ensures { Gives (λ x. (expr_of x.0, tokens_of x.1.now)) result (nested_at (suc depth) (tokens_of tokens.now)) }
{
    if begins_name(tokens) {
        return named(alloc, tokens, depth);
    }
    unnamed(alloc, tokens, depth)
}

// An operand that a mark or a literal begins.
#[cycle(read)]
fn unnamed(alloc: Global, tokens: &[Token], depth: u32) -> Result<(Expr, &[Token]), Stop>
    ensures { Gives (λ x. (expr_of x.0, tokens_of x.1.now)) result (unnamed_at depth (nested_at depth) (level_at (nested_at depth) levels) (tokens_of tokens.now)) }
{
    if next_is(tokens, Mark::Minus) {
        return negative(alloc, tokens, depth);
    }
    if next_is(tokens, Mark::Not) {
        return inverse(alloc, tokens, depth);
    }
    if next_is(tokens, Mark::LParen) {
        return parentheses(alloc, tokens, depth);
    }
    let (constant, rest) = literal(tokens)?;
    Ok((Expr::Literal(constant), rest))
}

// A `-` and its operand. Directly before a number without a type it is the number's sign.
#[cycle(read)]
#[tactic(auto, unfolding(crate::specs::ExpressionReading::negative_at))]
fn negative(alloc: Global, tokens: &[Token], depth: u32) -> Result<(Expr, &[Token]), Stop>
    ensures { Gives (λ x. (expr_of x.0, tokens_of x.1.now)) result (negative_at depth (nested_at depth) (tokens_of tokens.now)) }
{
    let at = next_offset(tokens);
    let (rest, depth) = opened(tokens, Mark::Minus, depth)?;
    if begins_number(rest) {
        let (constant, rest) = number(rest, true)?;
        return Ok((Expr::Literal(constant), rest));
    }
    let (operand, rest) = operand(alloc, rest, depth)?;
    Ok((Expr::Negative(at, Box::new(alloc, operand)?), rest))
}

#[cycle(read)]
#[tactic(auto, unfolding(crate::specs::ExpressionReading::inverse_at))]
fn inverse(alloc: Global, tokens: &[Token], depth: u32) -> Result<(Expr, &[Token]), Stop>
    ensures { Gives (λ x. (expr_of x.0, tokens_of x.1.now)) result (inverse_at depth (nested_at depth) (tokens_of tokens.now)) }
{
    let at = next_offset(tokens);
    let (rest, depth) = opened(tokens, Mark::Not, depth)?;
    let (operand, rest) = operand(alloc, rest, depth)?;
    Ok((Expr::Inverse(at, Box::new(alloc, operand)?), rest))
}

#[cycle(read)]
#[tactic(auto, unfolding(crate::specs::ExpressionReading::parentheses_at))]
fn parentheses(alloc: Global, tokens: &[Token], depth: u32) -> Result<(Expr, &[Token]), Stop>
    ensures { Gives (λ x. (expr_of x.0, tokens_of x.1.now)) result (parentheses_at depth (level_at (nested_at depth) levels) (tokens_of tokens.now)) }
{
    let (rest, depth) = opened(tokens, Mark::LParen, depth)?;
    let (inside, rest) = expression_below(alloc, rest, LEVELS, depth)?;
    let rest = expect(rest, Mark::RParen)?;
    Ok((inside, rest))
}

// A variable, an element of an array or a call.
#[cycle(read)]
#[tactic(auto, unfolding(crate::specs::ExpressionReading::named_at))]
fn named(alloc: Global, tokens: &[Token], depth: u32) -> Result<(Expr, &[Token]), Stop>
    ensures { Gives (λ x. (expr_of x.0, tokens_of x.1.now)) result (named_at depth (level_at (nested_at depth) levels) (tokens_of tokens.now)) }
{
    let (name, rest) = read_name(tokens)?;
    if next_is(rest, Mark::LBracket) {
        return element(alloc, rest, name, depth);
    }
    if next_is(rest, Mark::LParen) {
        return call(alloc, rest, name, depth);
    }
    Ok((Expr::Variable(name), rest))
}

#[cycle(read)]
#[tactic(auto, unfolding(crate::specs::ExpressionReading::element_at))]
fn element(
    alloc: Global,
    tokens: &[Token],
    name: Name,
    depth: u32,
) -> Result<(Expr, &[Token]), Stop>
    ensures { Gives (λ x. (expr_of x.0, tokens_of x.1.now)) result (element_at depth (level_at (nested_at depth) levels) (word_of name) (tokens_of tokens.now)) }
{
    let at = next_offset(tokens);
    let (rest, depth) = opened(tokens, Mark::LBracket, depth)?;
    let (index, rest) = expression_below(alloc, rest, LEVELS, depth)?;
    let rest = expect(rest, Mark::RBracket)?;
    Ok((Expr::Element(name, at, Box::new(alloc, index)?), rest))
}

#[cycle(read)]
#[tactic(auto, unfolding(crate::specs::ExpressionReading::call_at))]
fn call(alloc: Global, tokens: &[Token], name: Name, depth: u32) -> Result<(Expr, &[Token]), Stop>
    ensures { Gives (λ x. (expr_of x.0, tokens_of x.1.now)) result (call_at depth (level_at (nested_at depth) levels) (word_of name) (tokens_of tokens.now)) }
{
    let (rest, depth) = opened(tokens, Mark::LParen, depth)?;
    let (arguments, rest) = arguments(alloc, rest, depth)?;
    let rest = expect(rest, Mark::RParen)?;
    Ok((Expr::Call(name, arguments), rest))
}

#[cycle(read)]
fn arguments(alloc: Global, tokens: &[Token], depth: u32) -> Result<(Vec<Expr>, &[Token]), Stop>
    ensures { Gives (λ x. (exprs_of x.0.items, tokens_of x.1.now)) result (list_at m.Comma (level_at (nested_at (suc depth)) levels) (tokens_of tokens.now)) }
{
    let mut arguments = Vec::new(alloc);
    let mut rest = tokens;
    for _ in 0..tokens.len() {
        let (argument, after) = expression_below(alloc, rest, LEVELS, depth)?;
        arguments.push(argument)?;
        if !next_is(after, Mark::Comma) {
            return Ok((arguments, after));
        }
        rest = &after[1..];
    }
    Err(Stop::Syntax(rest.len()))
}

//! Statements.

ghost use Rattle.std.specs.Prelude.{◌≡◌, map, string_bytes};
ghost use Rattle.fb_lex.specs.Views.{tokens_of};
ghost use Rattle.fb_read.specs.Answers.{Gives};
ghost use Rattle.fb_tree.specs.Words.{word_of, optional};
ghost use Rattle.fb_words.specs.declared.mark.Mark.TheVariants as m;
ghost use Rattle.fb_model.specs.StructuredTextGrammar.{is_number, most_nested};
ghost use Rattle.fb_tree.specs.Algorithms.{expr_of, bound_of, constant_of, stmt_of, branch_of, arm_of, body_of};
ghost use Rattle.st_parse.specs.ExpressionReading.{expression_at};
ghost use Rattle.st_parse.specs.Reading.{headed, begins_block, begins_entry, step_at, assign_at, element_at, assignment_at, branch_at, else_at, elsifs_at, if_at, arm_at, arms_at, case_at, bound_at, head_at, for_at, block_at, statement_at, entry_at, entries_at, nested_at, body_at};

use crate::expression;
use crate::label::{begins_integer, labels, optional};
use fb_lex::Token;
use fb_read::{Stop, begins_name, begins_number, expect, next_is, next_offset, read_name};
use fb_tree::{Arm, Bound, Branch, Constant, Name, Stmt};
use fb_words::Mark;
use std::alloc::Global;

// Whether IF, CASE or FOR stands next.
fn begins_block(tokens: &[Token]) -> bool
    ensures { result ≡ begins_block (tokens_of tokens.now) }
{
    next_is(tokens, Mark::If) || next_is(tokens, Mark::Case) || next_is(tokens, Mark::For)
}

// Whether a statement begins with the next token, or that is a lone `;`.
fn begins_entry(tokens: &[Token]) -> bool
    ensures { result ≡ begins_entry (tokens_of tokens.now) }
{
    next_is(tokens, Mark::Semicolon) || begins_name(tokens) || begins_block(tokens)
}

// `:= expr` behind a name.
#[tactic(auto, unfolding(crate::specs::Reading::assign_at))]
fn assign(alloc: Global, tokens: &[Token], name: Name) -> Result<(Stmt, &[Token]), Stop>
    ensures { Gives (λ x. (stmt_of x.0, tokens_of x.1.now)) result (assign_at (expression_at most_nested) (word_of name) (tokens_of tokens.now)) }
{
    let at = next_offset(tokens);
    let rest = expect(tokens, Mark::Assign)?;
    let (value, rest) = expression(alloc, rest)?;
    Ok((Stmt::Assign(name, at, value), rest))
}

// `[expr] := expr` behind a name.
#[tactic(auto, unfolding(crate::specs::Reading::element_at))]
fn assign_element(alloc: Global, tokens: &[Token], name: Name) -> Result<(Stmt, &[Token]), Stop>
    ensures { Gives (λ x. (stmt_of x.0, tokens_of x.1.now)) result (element_at (expression_at most_nested) (word_of name) (tokens_of tokens.now)) }
{
    let bracket = next_offset(tokens);
    let rest = expect(tokens, Mark::LBracket)?;
    let (index, rest) = expression(alloc, rest)?;
    let rest = expect(rest, Mark::RBracket)?;
    let at = next_offset(rest);
    let rest = expect(rest, Mark::Assign)?;
    let (value, rest) = expression(alloc, rest)?;
    Ok((Stmt::AssignElement(name, bracket, index, at, value), rest))
}

// An assignment to a variable or to an element.
#[tactic(auto, unfolding(crate::specs::Reading::assignment_at))]
fn assignment(alloc: Global, tokens: &[Token]) -> Result<(Stmt, &[Token]), Stop>
    ensures { Gives (λ x. (stmt_of x.0, tokens_of x.1.now)) result (assignment_at (expression_at most_nested) (tokens_of tokens.now)) }
{
    let (name, rest) = read_name(tokens)?;
    if next_is(rest, Mark::LBracket) {
        return assign_element(alloc, rest, name);
    }
    assign(alloc, rest, name)
}

/// Statements, each with its `;`, as long as one begins; lone `;` among them are none. IF, CASE and FOR nest so deep at most.
#[cycle(statements)]
pub fn list(alloc: Global, tokens: &[Token], depth: u32) -> Result<(Vec<Stmt>, &[Token]), Stop>
    ensures { Gives (λ x. (body_of x.0.items, tokens_of x.1.now)) result (body_at (expression_at most_nested) depth (tokens_of tokens.now)) }
{
    let mut list = Vec::new(alloc);
    let mut rest = tokens;
    for _ in 0..tokens.len() {
        if !begins_entry(rest) {
            return Ok((list, rest));
        }
        let (entry, after) = entry(alloc, rest, depth)?;
        match entry {
            Some(statement) => list.push(statement)?,
            None => {}
        }
        rest = after;
    }
    Ok((list, rest))
}

// A statement and its `;`, or a lone one.
#[cycle(statements)]
#[tactic(auto, unfolding(crate::specs::Reading::entry_at))]
fn entry(alloc: Global, tokens: &[Token], depth: u32) -> Result<(Option<Stmt>, &[Token]), Stop>
    ensures { Gives (λ x. (optional stmt_of x.0, tokens_of x.1.now)) result (entry_at (statement_at (expression_at most_nested) (nested_at (expression_at most_nested) depth)) (tokens_of tokens.now)) }
{
    if next_is(tokens, Mark::Semicolon) {
        return Ok((None, &tokens[1..]));
    }
    let (statement, rest) = statement(alloc, tokens, depth)?;
    let rest = expect(rest, Mark::Semicolon)?;
    Ok((Some(statement), rest))
}

// A statement.
#[cycle(statements)]
#[tactic(auto, unfolding(crate::specs::Reading::statement_at))]
fn statement(alloc: Global, tokens: &[Token], depth: u32) -> Result<(Stmt, &[Token]), Stop>
    ensures { Gives (λ x. (stmt_of x.0, tokens_of x.1.now)) result (statement_at (expression_at most_nested) (nested_at (expression_at most_nested) depth) (tokens_of tokens.now)) }
{
    if begins_block(tokens) {
        return nested(alloc, tokens, depth);
    }
    assignment(alloc, tokens)
}

// IF, CASE or FOR, where so many may nest.
#[cycle(statements)]
#[tactic(auto, unfolding(crate::specs::Reading::nested_at))]
fn nested(alloc: Global, tokens: &[Token], depth: u32) -> Result<(Stmt, &[Token]), Stop>
    ensures { Gives (λ x. (stmt_of x.0, tokens_of x.1.now)) result (nested_at (expression_at most_nested) depth (tokens_of tokens.now)) }
{
    if depth == 0 {
        return Err(Stop::TooDeep(tokens.len()));
    }
    block(alloc, tokens, depth - 1)
}

// IF, CASE or FOR, with lists inside that nest so deep.
#[cycle(statements)]
#[tactic(auto, unfolding(crate::specs::Reading::block_at))]
fn block(alloc: Global, tokens: &[Token], depth: u32) -> Result<(Stmt, &[Token]), Stop>
    ensures { Gives (λ x. (stmt_of x.0, tokens_of x.1.now)) result (block_at (expression_at most_nested) (body_at (expression_at most_nested) depth) (tokens_of tokens.now)) }
{
    if next_is(tokens, Mark::If) {
        return choice(alloc, tokens, depth);
    }
    if next_is(tokens, Mark::Case) {
        return selection(alloc, tokens, depth);
    }
    repetition(alloc, tokens, depth)
}

// IF to END_IF.
#[cycle(statements)]
#[tactic(auto, unfolding(crate::specs::Reading::if_at))]
fn choice(alloc: Global, tokens: &[Token], depth: u32) -> Result<(Stmt, &[Token]), Stop>
    ensures { Gives (λ x. (stmt_of x.0, tokens_of x.1.now)) result (if_at (expression_at most_nested) (body_at (expression_at most_nested) depth) (tokens_of tokens.now)) }
{
    let (first, rest) = branch(alloc, tokens, Mark::If, depth)?;
    let (branches, rest) = branches(alloc, rest, first, depth)?;
    let (otherwise, rest) = otherwise(alloc, rest, depth)?;
    let rest = expect(rest, Mark::EndIf)?;
    Ok((Stmt::If(branches, otherwise), rest))
}

// A condition behind IF or ELSIF, and what is done where it holds.
#[cycle(statements)]
#[tactic(auto, unfolding(crate::specs::Reading::branch_at))]
fn branch(
    alloc: Global,
    tokens: &[Token],
    opening: Mark,
    depth: u32,
) -> Result<(Branch, &[Token]), Stop>
    ensures { Gives (λ x. (branch_of x.0, tokens_of x.1.now)) result (branch_at (expression_at most_nested) (body_at (expression_at most_nested) depth) opening (tokens_of tokens.now)) }
{
    let at = next_offset(tokens);
    let rest = expect(tokens, opening)?;
    let (condition, rest) = expression(alloc, rest)?;
    let rest = expect(rest, Mark::Then)?;
    let (body, rest) = list(alloc, rest, depth)?;
    let branch = Branch {
        at,
        condition,
        body,
    };
    Ok((branch, rest))
}

// A first condition, and those behind ELSIF.
#[cycle(statements)]
fn branches(
    alloc: Global,
    tokens: &[Token],
    first: Branch,
    depth: u32,
) -> Result<(Vec<Branch>, &[Token]), Stop>
    ensures { Gives (λ x. (map branch_of x.0.items, tokens_of x.1.now)) result (headed (branch_of first) (elsifs_at (expression_at most_nested) (body_at (expression_at most_nested) depth) (tokens_of tokens.now))) }
{
    let mut branches = Vec::new(alloc);
    branches.push(first)?;
    let mut rest = tokens;
    for _ in 0..tokens.len() {
        if !next_is(rest, Mark::Elsif) {
            return Ok((branches, rest));
        }
        let (branch, after) = branch(alloc, rest, Mark::Elsif, depth)?;
        branches.push(branch)?;
        rest = after;
    }
    Ok((branches, rest))
}

// What stands behind ELSE, nothing where it is absent.
#[cycle(statements)]
#[tactic(auto, unfolding(crate::specs::Reading::else_at))]
fn otherwise(alloc: Global, tokens: &[Token], depth: u32) -> Result<(Vec<Stmt>, &[Token]), Stop>
    ensures { Gives (λ x. (body_of x.0.items, tokens_of x.1.now)) result (else_at (body_at (expression_at most_nested) depth) (tokens_of tokens.now)) }
{
    if !next_is(tokens, Mark::Else) {
        return Ok((Vec::new(alloc), tokens));
    }
    list(alloc, &tokens[1..], depth)
}

// CASE to END_CASE.
#[cycle(statements)]
#[tactic(auto, unfolding(crate::specs::Reading::case_at))]
fn selection(alloc: Global, tokens: &[Token], depth: u32) -> Result<(Stmt, &[Token]), Stop>
    ensures { Gives (λ x. (stmt_of x.0, tokens_of x.1.now)) result (case_at (expression_at most_nested) (body_at (expression_at most_nested) depth) (tokens_of tokens.now)) }
{
    let at = next_offset(tokens);
    let rest = expect(tokens, Mark::Case)?;
    let (selector, rest) = expression(alloc, rest)?;
    let rest = expect(rest, Mark::Of)?;
    let (first, rest) = arm(alloc, rest, depth)?;
    let (arms, rest) = arms(alloc, rest, first, depth)?;
    let (otherwise, rest) = otherwise(alloc, rest, depth)?;
    let rest = expect(rest, Mark::EndCase)?;
    Ok((Stmt::Case(at, selector, arms, otherwise), rest))
}

// Labels, and what is done where one of them has the value.
#[cycle(statements)]
#[tactic(auto, unfolding(crate::specs::Reading::arm_at))]
fn arm(alloc: Global, tokens: &[Token], depth: u32) -> Result<(Arm, &[Token]), Stop>
    ensures { Gives (λ x. (arm_of x.0, tokens_of x.1.now)) result (arm_at (body_at (expression_at most_nested) depth) (tokens_of tokens.now)) }
{
    let (labels, rest) = labels(alloc, tokens)?;
    let rest = expect(rest, Mark::Colon)?;
    let (body, rest) = list(alloc, rest, depth)?;
    Ok((Arm { labels, body }, rest))
}

// A first arm, and those behind it.
#[cycle(statements)]
fn arms(
    alloc: Global,
    tokens: &[Token],
    first: Arm,
    depth: u32,
) -> Result<(Vec<Arm>, &[Token]), Stop>
    ensures { Gives (λ x. (map arm_of x.0.items, tokens_of x.1.now)) result (headed (arm_of first) (arms_at (body_at (expression_at most_nested) depth) (tokens_of tokens.now))) }
{
    let mut arms = Vec::new(alloc);
    arms.push(first)?;
    let mut rest = tokens;
    for _ in 0..tokens.len() {
        if !begins_integer(rest) {
            return Ok((arms, rest));
        }
        let (arm, after) = arm(alloc, rest, depth)?;
        arms.push(arm)?;
        rest = after;
    }
    Ok((arms, rest))
}

// Whether tokens are a number without a type, perhaps with a `-` directly before it.
fn is_number(tokens: &[Token]) -> bool
    ensures { result ≡ is_number (tokens_of tokens.now) }
{
    match tokens {
        [_] => begins_number(tokens),
        [_, _] => next_is(tokens, Mark::Minus) && begins_number(&tokens[1..]),
        _ => false,
    }
}

// The first or the last value of FOR.
#[tactic(auto, unfolding(crate::specs::Reading::bound_at))]
fn bound(alloc: Global, tokens: &[Token]) -> Result<(Bound, &[Token]), Stop>
    ensures { Gives (λ x. (bound_of x.0, tokens_of x.1.now)) result (bound_at (expression_at most_nested) (tokens_of tokens.now)) }
{
    let (value, rest) = expression(alloc, tokens)?;
    let taken = tokens.len().saturating_sub(rest.len());
    let plain = is_number(&tokens[..taken]);
    Ok((Bound { value, plain }, rest))
}

// The variable, the first and the last value and the step of FOR, up to DO.
#[tactic(auto, unfolding(crate::specs::Reading::head_at))]
fn head(
    alloc: Global,
    tokens: &[Token],
) -> Result<((Name, Bound, Bound, Option<Constant>), &[Token]), Stop>
    ensures { Gives (λ x. ((word_of x.0.0, bound_of x.0.1, bound_of x.0.2, optional constant_of x.0.3), tokens_of x.1.now)) result (head_at (expression_at most_nested) (tokens_of tokens.now)) }
{
    let (variable, rest) = read_name(tokens)?;
    let rest = expect(rest, Mark::Assign)?;
    let (first, rest) = bound(alloc, rest)?;
    let rest = expect(rest, Mark::To)?;
    let (last, rest) = bound(alloc, rest)?;
    let (step, rest) = optional(rest, Mark::By)?;
    let rest = expect(rest, Mark::Do)?;
    Ok(((variable, first, last, step), rest))
}

// FOR to END_FOR.
#[cycle(statements)]
#[tactic(auto, unfolding(crate::specs::Reading::for_at))]
fn repetition(alloc: Global, tokens: &[Token], depth: u32) -> Result<(Stmt, &[Token]), Stop>
    ensures { Gives (λ x. (stmt_of x.0, tokens_of x.1.now)) result (for_at (expression_at most_nested) (body_at (expression_at most_nested) depth) (tokens_of tokens.now)) }
{
    let at = next_offset(tokens);
    let rest = expect(tokens, Mark::For)?;
    let ((variable, first, last, step), rest) = head(alloc, rest)?;
    let (body, rest) = list(alloc, rest, depth)?;
    let rest = expect(rest, Mark::EndFor)?;
    Ok((Stmt::For(at, variable, first, last, step, body), rest))
}

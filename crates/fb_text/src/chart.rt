//! Execution control charts and algorithms.

ghost use Rattle.std.specs.Prelude.{◌≡◌, map, string_bytes};
ghost use Rattle.fb_lex.specs.Views.{tokens_of};
ghost use Rattle.fb_read.specs.Answers.{Gives};
ghost use Rattle.fb_tree.specs.Words.{word_of, optional};
ghost use Rattle.fb_read.specs.Reading.{after};
ghost use Rattle.fb_model.specs.Declarations as book;
ghost use Rattle.fb_model.specs.StructuredTextGrammar.{most_nested, most_nested_statements};
ghost use Rattle.fb_tree.specs.Algorithms.{body_of};
ghost use Rattle.st_parse.specs.ExpressionReading.{expression_at};
ghost use Rattle.st_parse.specs.Reading.{algorithm_at};
ghost use Rattle.fb_tree.specs.Files.{guard_of, transition_of, algorithm_of, chart_of};
ghost use Rattle.fb_text.specs.Reading.{is_always, guard_at, where_at, on_event_at, guarded_at, condition_at, transition_at, transitions_at, text_at, procedure_at, chart_at};

use crate::state::states;
use crate::variable::internal_section;
use crate::word::word;
use crate::{Item, closed, many};
use fb_lex::{Kind, Token};
use fb_read::{Stop, begins_name, expect, next_is, next_offset, read_name};
use fb_tree::{AlgorithmTree, ChartTree, GuardTree, Name, Stmt, TransitionTree};
use fb_words::Mark;
use st_parse::{body, expression};
use std::alloc::Global;

// Whether the untyped number 1 stands next.
fn is_always(tokens: &[Token]) -> bool
    ensures { result ≡ is_always (tokens_of tokens.now) }
{
    match tokens {
        [] => false,
        [token, ..] => match &token.kind {
            Kind::Number(value) => *value == 1,
            _ => false,
        },
    }
}

// What is left behind the next token.
fn after(tokens: &[Token]) -> &[Token]
    ensures { tokens_of result.now ≡ after (tokens_of tokens.now) }
{
    match tokens {
        [] => tokens,
        [_, rest @ ..] => rest,
    }
}

// A guard in square brackets.
#[tactic(auto, unfolding(crate::specs::Reading::guard_at))]
fn guard(alloc: Global, tokens: &[Token]) -> Result<(GuardTree, &[Token]), Stop>
    ensures { Gives (λ x. (guard_of x.0, tokens_of x.1.now)) result (guard_at (expression_at most_nested) (tokens_of tokens.now)) }
{
    let at = next_offset(tokens);
    let rest = expect(tokens, Mark::LBracket)?;
    let (condition, rest) = expression(alloc, rest)?;
    let rest = expect(rest, Mark::RBracket)?;
    Ok((GuardTree { at, condition }, rest))
}

// A guard, where one stands.
#[tactic(auto, unfolding(crate::specs::Reading::where_at))]
fn optional_guard(alloc: Global, tokens: &[Token]) -> Result<(Option<GuardTree>, &[Token]), Stop>
    ensures { Gives (λ x. (optional guard_of x.0, tokens_of x.1.now)) result (where_at (expression_at most_nested) (tokens_of tokens.now)) }
{
    if !next_is(tokens, Mark::LBracket) {
        return Ok((None, tokens));
    }
    let (guard, rest) = guard(alloc, tokens)?;
    Ok((Some(guard), rest))
}

// An event, perhaps with a guard.
#[tactic(auto, unfolding(crate::specs::Reading::on_event_at))]
fn on_event(
    alloc: Global,
    tokens: &[Token],
) -> Result<((Option<Name>, Option<GuardTree>), &[Token]), Stop>
    ensures { Gives (λ x. ((optional word_of x.0.0, optional guard_of x.0.1), tokens_of x.1.now)) result (on_event_at (expression_at most_nested) (tokens_of tokens.now)) }
{
    let (event, rest) = read_name(tokens)?;
    let (guard, rest) = optional_guard(alloc, rest)?;
    Ok(((Some(event), guard), rest))
}

// A guard without an event.
#[tactic(auto, unfolding(crate::specs::Reading::guarded_at))]
fn guarded(
    alloc: Global,
    tokens: &[Token],
) -> Result<((Option<Name>, Option<GuardTree>), &[Token]), Stop>
    ensures { Gives (λ x. ((optional word_of x.0.0, optional guard_of x.0.1), tokens_of x.1.now)) result (guarded_at (expression_at most_nested) (tokens_of tokens.now)) }
{
    let (guard, rest) = guard(alloc, tokens)?;
    Ok(((None, Some(guard)), rest))
}

// The event and the guard of a condition, neither for `1`.
#[tactic(auto, unfolding(crate::specs::Reading::condition_at))]
fn condition(
    alloc: Global,
    tokens: &[Token],
) -> Result<((Option<Name>, Option<GuardTree>), &[Token]), Stop>
    ensures { Gives (λ x. ((optional word_of x.0.0, optional guard_of x.0.1), tokens_of x.1.now)) result (condition_at (expression_at most_nested) (tokens_of tokens.now)) }
{
    if is_always(tokens) {
        return Ok(((None, None), after(tokens)));
    }
    if begins_name(tokens) {
        return on_event(alloc, tokens);
    }
    guarded(alloc, tokens)
}

impl Item for TransitionTree {
    ghost Tree = { book.TransitionTree };

    ghost view = { transition_of };

    ghost reads = { transition_at (expression_at most_nested) };

    #[tactic(auto, unfolding(crate::specs::Reading::transition_at))]
    fn read(alloc: Global, tokens: &[Token]) -> Result<(TransitionTree, &[Token]), Stop> {
        let (source, rest) = read_name(tokens)?;
        let rest = expect(rest, Mark::To)?;
        let (target, rest) = read_name(rest)?;
        let rest = expect(rest, Mark::Assign)?;
        let ((event, guard), rest) = condition(alloc, rest)?;
        let rest = expect(rest, Mark::Semicolon)?;
        let transition = TransitionTree {
            source,
            target,
            event,
            guard,
        };
        Ok((transition, rest))
    }
}

// The transitions of a chart.
#[tactic(auto, unfolding(crate::specs::Reading::transitions_at))]
fn transitions(alloc: Global, tokens: &[Token]) -> Result<(Vec<TransitionTree>, &[Token]), Stop>
    ensures { Gives (λ x. (map transition_of x.0.items, tokens_of x.1.now)) result (transitions_at (expression_at most_nested) (tokens_of tokens.now)) }
{
    let rest = expect(tokens, Mark::EcTransitions)?;
    closed::<TransitionTree>(alloc, rest, Mark::EndTransitions)
}

// What stands behind the name of an algorithm, to END_ALGORITHM.
#[tactic(auto, unfolding(crate::specs::Reading::text_at))]
fn text(alloc: Global, tokens: &[Token]) -> Result<(Vec<Stmt>, &[Token]), Stop>
    ensures { Gives (λ x. (body_of x.0.items, tokens_of x.1.now)) result (text_at (algorithm_at most_nested most_nested_statements) (tokens_of tokens.now)) }
{
    let rest = word(tokens, "IN")?;
    let rest = word(rest, "ST")?;
    let rest = expect(rest, Mark::Colon)?;
    let (body, rest) = body(alloc, rest)?;
    let rest = expect(rest, Mark::EndAlgorithm)?;
    Ok((body, rest))
}

impl Item for AlgorithmTree {
    ghost Tree = { book.AlgorithmTree };

    ghost view = { algorithm_of };

    ghost reads = { procedure_at (algorithm_at most_nested most_nested_statements) };

    #[tactic(auto, unfolding(crate::specs::Reading::procedure_at))]
    fn read(alloc: Global, tokens: &[Token]) -> Result<(AlgorithmTree, &[Token]), Stop> {
        let rest = expect(tokens, Mark::Algorithm)?;
        let (name, rest) = read_name(rest)?;
        let (body, rest) = text(alloc, rest)?;
        Ok((AlgorithmTree { name, body }, rest))
    }
}

/// What a basic block does, up to END_FUNCTION_BLOCK, which is left.
#[tactic(auto, unfolding(crate::specs::Reading::chart_at))]
pub fn chart(alloc: Global, tokens: &[Token]) -> Result<(ChartTree, &[Token]), Stop>
    ensures { Gives (λ x. (chart_of x.0, tokens_of x.1.now)) result (chart_at (expression_at most_nested) (algorithm_at most_nested most_nested_statements) (tokens_of tokens.now)) }
{
    let (internals, rest) = internal_section(alloc, tokens)?;
    let (states, rest) = states(alloc, rest)?;
    let (transitions, rest) = transitions(alloc, rest)?;
    let (algorithms, rest) = many(alloc, rest, Mark::EndFunctionBlock)?;
    let chart = ChartTree {
        internals,
        states,
        transitions,
        algorithms,
    };
    Ok((chart, rest))
}

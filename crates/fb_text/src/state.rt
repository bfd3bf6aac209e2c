//! States of execution control charts.

ghost use Rattle.std.specs.Prelude.{◌≡◌, map};
ghost use Rattle.fb_lex.specs.Views.{tokens_of};
ghost use Rattle.fb_read.specs.Answers.{Gives};
ghost use Rattle.fb_tree.specs.Words.{word_of, optional};
ghost use Rattle.fb_model.specs.Trees as book;
ghost use Rattle.fb_tree.specs.Files.{action_of, state_of};
ghost use Rattle.fb_text.specs.Reading.{output_at, emitting_at, running_at, action_at, actions_at, state_at, states_at};

use crate::{Item, closed, separated};
use fb_lex::Token;
use fb_read::{Stop, expect, next_is, read_name};
use fb_tree::{ActionTree, Name, StateTree};
use fb_words::Mark;
use std::alloc::Global;

// The event output behind `->`, where it stands.
#[tactic(auto, unfolding(crate::specs::Reading::output_at))]
fn output(tokens: &[Token]) -> Result<(Option<Name>, &[Token]), Stop>
    ensures { Gives (λ x. (optional word_of x.0, tokens_of x.1.now)) result (output_at (tokens_of tokens.now)) }
{
    if !next_is(tokens, Mark::Arrow) {
        return Ok((None, tokens));
    }
    let (name, rest) = read_name(&tokens[1..])?;
    Ok((Some(name), rest))
}

// An action that runs an algorithm, and perhaps emits.
#[tactic(auto, unfolding(crate::specs::Reading::running_at))]
fn running(tokens: &[Token]) -> Result<(ActionTree, &[Token]), Stop>
    ensures { Gives (λ x. (action_of x.0, tokens_of x.1.now)) result (running_at (tokens_of tokens.now)) }
{
    let (name, rest) = read_name(tokens)?;
    let (output, rest) = output(rest)?;
    let action = ActionTree {
        algorithm: Some(name),
        output,
    };
    Ok((action, rest))
}

// An action that emits alone.
#[tactic(auto, unfolding(crate::specs::Reading::emitting_at))]
fn emitting(tokens: &[Token]) -> Result<(ActionTree, &[Token]), Stop>
    ensures { Gives (λ x. (action_of x.0, tokens_of x.1.now)) result (emitting_at (tokens_of tokens.now)) }
{
    let (output, rest) = output(tokens)?;
    let action = ActionTree {
        algorithm: None,
        output,
    };
    Ok((action, rest))
}

impl Item for ActionTree {
    ghost Tree = { book.ActionTree };

    ghost view = { action_of };

    ghost reads = { action_at };

    #[tactic(auto, unfolding(crate::specs::Reading::action_at))]
    fn read(_alloc: Global, tokens: &[Token]) -> Result<(ActionTree, &[Token]), Stop> {
        if next_is(tokens, Mark::Arrow) {
            return emitting(tokens);
        }
        running(tokens)
    }
}

// The actions behind `:`, none where it is absent.
#[tactic(auto, unfolding(crate::specs::Reading::actions_at))]
fn actions(alloc: Global, tokens: &[Token]) -> Result<(Vec<ActionTree>, &[Token]), Stop>
    ensures { Gives (λ x. (map action_of x.0.items, tokens_of x.1.now)) result (actions_at (tokens_of tokens.now)) }
{
    if !next_is(tokens, Mark::Colon) {
        return Ok((Vec::new(alloc), tokens));
    }
    separated::<ActionTree>(alloc, &tokens[1..], Mark::Comma)
}

impl Item for StateTree {
    ghost Tree = { book.StateTree };

    ghost view = { state_of };

    ghost reads = { state_at };

    #[tactic(auto, unfolding(crate::specs::Reading::state_at))]
    fn read(alloc: Global, tokens: &[Token]) -> Result<(StateTree, &[Token]), Stop> {
        let (name, rest) = read_name(tokens)?;
        let (actions, rest) = actions(alloc, rest)?;
        let rest = expect(rest, Mark::Semicolon)?;
        Ok((StateTree { name, actions }, rest))
    }
}

/// The states of a chart, one at least.
#[tactic(auto, unfolding(crate::specs::Reading::states_at))]
pub fn states(alloc: Global, tokens: &[Token]) -> Result<(Vec<StateTree>, &[Token]), Stop>
    ensures { Gives (λ x. (map state_of x.0.items, tokens_of x.1.now)) result (states_at (tokens_of tokens.now)) }
{
    let rest = expect(tokens, Mark::EcStates)?;
    if next_is(rest, Mark::EndStates) {
        return Err(Stop::Syntax(rest.len()));
    }
    closed::<StateTree>(alloc, rest, Mark::EndStates)
}

//! Labels of CASE and steps of FOR.

ghost use Rattle.std.specs.Prelude.{◌≡◌, map};
ghost use Rattle.fb_lex.specs.Views.{tokens_of};
ghost use Rattle.fb_read.specs.Answers.{Gives};
ghost use Rattle.fb_tree.specs.Words.{optional};
ghost use Rattle.fb_read.specs.Reading.{list_at};
ghost use Rattle.fb_words.specs.declared.mark.Mark.TheVariants as m;
ghost use Rattle.fb_tree.specs.Algorithms.{constant_of, label_of};
ghost use Rattle.st_parse.specs.ConstantReading.{number_at};
ghost use Rattle.st_parse.specs.Reading.{integer_at, optional_at, label_at, begins_integer};

use crate::constant::number;
use fb_lex::Token;
use fb_read::{Stop, begins_number, next_is};
use fb_tree::{Constant, Label};
use fb_words::Mark;
use std::alloc::Global;

/// The number without a type that has to stand next, perhaps behind its sign. A stop is at the first token that cannot stand there.
#[tactic(auto, unfolding(crate::specs::Reading::integer_at))]
pub fn integer(tokens: &[Token]) -> Result<(Constant, &[Token]), Stop>
    ensures { Gives (λ x. (constant_of x.0, tokens_of x.1.now)) result (integer_at (tokens_of tokens.now)) }
{
    if next_is(tokens, Mark::Minus) {
        return number(&tokens[1..], true);
    }
    number(tokens, false)
}

/// The number behind a mark, perhaps with its sign; none where the mark is absent.
#[tactic(auto, unfolding(crate::specs::Reading::optional_at))]
pub fn optional(tokens: &[Token], mark: Mark) -> Result<(Option<Constant>, &[Token]), Stop>
    ensures { Gives (λ x. (optional constant_of x.0, tokens_of x.1.now)) result (optional_at mark (tokens_of tokens.now)) }
{
    if !next_is(tokens, mark) {
        return Ok((None, tokens));
    }
    let (constant, rest) = integer(&tokens[1..])?;
    Ok((Some(constant), rest))
}

// A number, or all numbers from one to another.
#[tactic(auto, unfolding(crate::specs::Reading::label_at))]
fn label(tokens: &[Token]) -> Result<(Label, &[Token]), Stop>
    ensures { Gives (λ x. (label_of x.0, tokens_of x.1.now)) result (label_at (tokens_of tokens.now)) }
{
    let (low, rest) = integer(tokens)?;
    let (high, rest) = optional(rest, Mark::DotDot)?;
    Ok((Label { low, high }, rest))
}

/// The labels of an arm, one at least, with commas between them.
pub fn labels(alloc: Global, tokens: &[Token]) -> Result<(Vec<Label>, &[Token]), Stop>
    ensures { Gives (λ x. (map label_of x.0.items, tokens_of x.1.now)) result (list_at m.Comma label_at (tokens_of tokens.now)) }
{
    let mut labels = Vec::new(alloc);
    let mut rest = tokens;
    for _ in 0..tokens.len() {
        let (label, after) = label(rest)?;
        labels.push(label)?;
        if !next_is(after, Mark::Comma) {
            return Ok((labels, after));
        }
        rest = &after[1..];
    }
    Err(Stop::Syntax(rest.len()))
}

/// Whether a label begins with the next token.
pub fn begins_integer(tokens: &[Token]) -> bool
    ensures { result ≡ begins_integer (tokens_of tokens.now) }
{
    next_is(tokens, Mark::Minus) || begins_number(tokens)
}

//! Variables of blocks.

ghost use Rattle.std.specs.Prelude.{◌≡◌, map};
ghost use Rattle.fb_lex.specs.Views.{tokens_of};
ghost use Rattle.fb_read.specs.Answers.{Gives};
ghost use Rattle.fb_tree.specs.Words.{word_of, optional};
ghost use Rattle.fb_read.specs.Reading.{items_at, section_at};
ghost use Rattle.fb_words.specs.declared.mark.Mark.TheVariants as m;
ghost use Rattle.fb_model.specs.Declarations as book;
ghost use Rattle.fb_tree.specs.Files.{bounds_of, start_of, variable_of};
ghost use Rattle.fb_text.specs.Reading.{start_at, plain_at, names_at, variable_at, bounds_at, array_at, internal_at};

use crate::constant::constant;
use crate::{Item, separated};
use fb_lex::Token;
use fb_read::{Stop, expect, next_is, next_offset, read_type};
use fb_tree::{BoundsTree, Name, StartTree, VariableTree};
use fb_words::Mark;
use st_parse::integer;
use std::alloc::Global;

// The start value behind `:=`, none where it is absent.
#[tactic(auto, unfolding(crate::specs::Reading::start_at))]
fn start(tokens: &[Token]) -> Result<(Option<StartTree>, &[Token]), Stop>
    ensures { Gives (λ x. (optional start_of x.0, tokens_of x.1.now)) result (start_at (tokens_of tokens.now)) }
{
    if !next_is(tokens, Mark::Assign) {
        return Ok((None, tokens));
    }
    let at = next_offset(tokens);
    let (value, rest) = constant(&tokens[1..])?;
    Ok((Some(StartTree { at, value }), rest))
}

// The names of variables, and the `:` behind them.
#[tactic(auto, unfolding(crate::specs::Reading::names_at))]
fn names(alloc: Global, tokens: &[Token]) -> Result<(Vec<Name>, &[Token]), Stop>
    ensures { Gives (λ x. (map word_of x.0.items, tokens_of x.1.now)) result (names_at (tokens_of tokens.now)) }
{
    let (names, rest) = separated::<Name>(alloc, tokens, Mark::Comma)?;
    let rest = expect(rest, Mark::Colon)?;
    Ok((names, rest))
}

// The type and the start value of variables that have these names.
#[tactic(auto, unfolding(crate::specs::Reading::plain_at))]
fn plain(names: Vec<Name>, tokens: &[Token]) -> Result<(VariableTree, &[Token]), Stop>
    ensures { Gives (λ x. (variable_of x.0, tokens_of x.1.now)) result (plain_at (map word_of names.items) (tokens_of tokens.now)) }
{
    let (of_type, rest) = read_type(tokens)?;
    let (start, rest) = start(rest)?;
    let rest = expect(rest, Mark::Semicolon)?;
    let variable = VariableTree {
        names,
        bounds: None,
        of_type,
        start,
    };
    Ok((variable, rest))
}

// The lowest and the highest index, in square brackets.
#[tactic(auto, unfolding(crate::specs::Reading::bounds_at))]
fn bounds(tokens: &[Token]) -> Result<(BoundsTree, &[Token]), Stop>
    ensures { Gives (λ x. (bounds_of x.0, tokens_of x.1.now)) result (bounds_at (tokens_of tokens.now)) }
{
    let rest = expect(tokens, Mark::LBracket)?;
    let (low, rest) = integer(rest)?;
    let rest = expect(rest, Mark::DotDot)?;
    let (high, rest) = integer(rest)?;
    let rest = expect(rest, Mark::RBracket)?;
    Ok((BoundsTree { low, high }, rest))
}

// The bounds and the type of arrays that have these names.
#[tactic(auto, unfolding(crate::specs::Reading::array_at))]
fn array(names: Vec<Name>, tokens: &[Token]) -> Result<(VariableTree, &[Token]), Stop>
    ensures { Gives (λ x. (variable_of x.0, tokens_of x.1.now)) result (array_at (map word_of names.items) (tokens_of tokens.now)) }
{
    let (bounds, rest) = bounds(tokens)?;
    let rest = expect(rest, Mark::Of)?;
    let (of_type, rest) = read_type(rest)?;
    let rest = expect(rest, Mark::Semicolon)?;
    let variable = VariableTree {
        names,
        bounds: Some(bounds),
        of_type,
        start: None,
    };
    Ok((variable, rest))
}

/// An input or an output stands in a list of variables.
impl Item for VariableTree {
    ghost Tree = { book.VariableTree };

    ghost view = { variable_of };

    ghost reads = { variable_at };

    #[tactic(auto, unfolding(crate::specs::Reading::variable_at))]
    fn read(alloc: Global, tokens: &[Token]) -> Result<(VariableTree, &[Token]), Stop> {
        let (names, rest) = names(alloc, tokens)?;
        plain(names, rest)
    }
}

// Internal variables, which may be arrays.
#[tactic(auto, unfolding(crate::specs::Reading::internal_at))]
fn internal(alloc: Global, tokens: &[Token]) -> Result<(VariableTree, &[Token]), Stop>
    ensures { Gives (λ x. (variable_of x.0, tokens_of x.1.now)) result (internal_at (tokens_of tokens.now)) }
{
    let (names, rest) = names(alloc, tokens)?;
    if next_is(rest, Mark::Array) {
        return array(names, &rest[1..]);
    }
    plain(names, rest)
}

// The internal variables up to END_VAR, which is left.
fn internals(alloc: Global, tokens: &[Token]) -> Result<(Vec<VariableTree>, &[Token]), Stop>
    ensures { Gives (λ x. (map variable_of x.0.items, tokens_of x.1.now)) result (items_at m.EndVar internal_at (tokens_of tokens.now)) }
{
    let mut variables = Vec::new(alloc);
    let mut rest = tokens;
    for _ in 0..tokens.len() {
        if next_is(rest, Mark::EndVar) {
            return Ok((variables, rest));
        }
        let (variable, after) = internal(alloc, rest)?;
        variables.push(variable)?;
        rest = after;
    }
    Err(Stop::Syntax(rest.len()))
}

/// The internal variables between VAR and END_VAR, none where VAR is absent.
#[tactic(auto, unfolding(fb_read::specs::Reading::section_at, fb_read::specs::Reading::closed_at))]
pub fn internal_section(
    alloc: Global,
    tokens: &[Token],
) -> Result<(Vec<VariableTree>, &[Token]), Stop>
    ensures { Gives (λ x. (map variable_of x.0.items, tokens_of x.1.now)) result (section_at m.Var m.EndVar internal_at (tokens_of tokens.now)) }
{
    if !next_is(tokens, Mark::Var) {
        return Ok((Vec::new(alloc), tokens));
    }
    let (variables, rest) = internals(alloc, &tokens[1..])?;
    let rest = expect(rest, Mark::EndVar)?;
    Ok((variables, rest))
}

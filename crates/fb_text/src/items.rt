//! Lists of items, read once for all kinds of items.

ghost use Rattle.std.specs.Prelude.{◌≡◌, ℕ, List, map, length};
ghost use Rattle.fb_lex.specs.Views.{tokens_of};
ghost use Rattle.fb_words.specs.declared.elem_type.ElemType as words;
ghost use Rattle.fb_model.specs.Productions.{Word};
ghost use Rattle.fb_read.specs.Reading.{Read, name_at, type_at, items_at, list_at, closed_at, section_at};
ghost use Rattle.fb_read.specs.Answers.{Gives};
ghost use Rattle.fb_tree.specs.Words.{word_of};

use fb_lex::Token;
use fb_read::{Stop, expect, next_is, read_name, read_type};
use fb_tree::Name;
use fb_words::{ElemType, Mark};
use std::alloc::Global;

/// What can stand in a list.
pub trait Item: Drop {
    /// The tree of an item, without where it lies in memory.
    ghost Tree: { Type 0 };

    ghost view: { Self → Tree };

    /// How an item is read.
    ghost reads: { Read Tree };

    /// Reads an item, and gives the tokens behind it.
    fn read(alloc: Global, tokens: &[Token]) -> Result<(Self, &[Token]), Stop>
        ensures { Gives (λ x. (view x.0, tokens_of x.1.now)) result (reads (tokens_of tokens.now)) };
}

/// A name stands in a list of names.
impl Item for Name {
    ghost Tree = { Word };

    ghost view = { word_of };

    ghost reads = { name_at };

    fn read(_alloc: Global, tokens: &[Token]) -> Result<(Name, &[Token]), Stop> {
        read_name(tokens)
    }
}

/// The name of a type stands in a list of types.
impl Item for ElemType {
    ghost Tree = { words.ElemType };

    ghost view = { λ of_type. of_type };

    ghost reads = { type_at };

    fn read(_alloc: Global, tokens: &[Token]) -> Result<(ElemType, &[Token]), Stop> {
        read_type(tokens)
    }
}

/// The items up to a mark, which is left.
pub fn many<I: Item>(
    alloc: Global,
    tokens: &[Token],
    close: Mark,
) -> Result<(Vec<I>, &[Token]), Stop>
    ensures { Gives (λ x. (map I.view x.0.items, tokens_of x.1.now)) result (items_at close I.reads (tokens_of tokens.now)) }
{
    let mut items = Vec::new(alloc);
    let mut rest = tokens;
    for _ in 0..tokens.len() {
        if next_is(rest, close) {
            return Ok((items, rest));
        }
        let (item, after) = I::read(alloc, rest)?;
        items.push(item)?;
        rest = after;
    }
    Err(Stop::Syntax(rest.len()))
}

/// An item, and another behind each separator.
pub fn separated<I: Item>(
    alloc: Global,
    tokens: &[Token],
    separator: Mark,
) -> Result<(Vec<I>, &[Token]), Stop>
    ensures { Gives (λ x. (map I.view x.0.items, tokens_of x.1.now)) result (list_at separator I.reads (tokens_of tokens.now)) }
{
    let mut items = Vec::new(alloc);
    let mut rest = tokens;
    for _ in 0..tokens.len() {
        let (item, after) = I::read(alloc, rest)?;
        items.push(item)?;
        if !next_is(after, separator) {
            return Ok((items, after));
        }
        rest = &after[1..];
    }
    Err(Stop::Syntax(rest.len()))
}

/// The items up to a mark, and what is left behind it.
#[tactic(auto, unfolding(fb_read::specs::Reading::closed_at))]
pub fn closed<I: Item>(
    alloc: Global,
    tokens: &[Token],
    close: Mark,
) -> Result<(Vec<I>, &[Token]), Stop>
    ensures { Gives (λ x. (map I.view x.0.items, tokens_of x.1.now)) result (closed_at close I.reads (tokens_of tokens.now)) }
{
    let (items, rest) = many::<I>(alloc, tokens, close)?;
    let rest = expect(rest, close)?;
    Ok((items, rest))
}

/// The items of a section between two marks, none where it is absent.
#[tactic(auto, unfolding(fb_read::specs::Reading::section_at))]
pub fn section<I: Item>(
    alloc: Global,
    tokens: &[Token],
    opening: Mark,
    closing: Mark,
) -> Result<(Vec<I>, &[Token]), Stop>
    ensures { Gives (λ x. (map I.view x.0.items, tokens_of x.1.now)) result (section_at opening closing I.reads (tokens_of tokens.now)) }
{
    if !next_is(tokens, opening) {
        return Ok((Vec::new(alloc), tokens));
    }
    closed::<I>(alloc, &tokens[1..], closing)
}

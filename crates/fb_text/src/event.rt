//! Events of blocks.

ghost use Rattle.std.specs.Prelude.{◌≡◌, map};
ghost use Rattle.fb_lex.specs.Views.{tokens_of};
ghost use Rattle.fb_read.specs.Answers.{Gives};
ghost use Rattle.fb_tree.specs.Words.{word_of};
ghost use Rattle.fb_model.specs.Declarations as book;
ghost use Rattle.fb_tree.specs.Files.{event_of};
ghost use Rattle.fb_text.specs.Reading.{kind_at, with_at, event_at};

use crate::word::word;
use crate::{Item, separated};
use fb_lex::Token;
use fb_read::{Stop, expect, next_is, read_name};
use fb_tree::{EventTree, Name};
use fb_words::Mark;
use std::alloc::Global;

// What is left behind `: EVENT`, where it stands.
fn kind(tokens: &[Token]) -> Result<&[Token], Stop>
    ensures { Gives (λ x. tokens_of x.now) result (kind_at (tokens_of tokens.now)) }
{
    if !next_is(tokens, Mark::Colon) {
        return Ok(tokens);
    }
    word(&tokens[1..], "EVENT")
}

// The variables behind WITH, none where it is absent.
#[tactic(auto, unfolding(crate::specs::Reading::with_at))]
fn carried(alloc: Global, tokens: &[Token]) -> Result<(Vec<Name>, &[Token]), Stop>
    ensures { Gives (λ x. (map word_of x.0.items, tokens_of x.1.now)) result (with_at (tokens_of tokens.now)) }
{
    if !next_is(tokens, Mark::With) {
        return Ok((Vec::new(alloc), tokens));
    }
    separated::<Name>(alloc, &tokens[1..], Mark::Comma)
}

impl Item for EventTree {
    ghost Tree = { book.EventTree };

    ghost view = { event_of };

    ghost reads = { event_at };

    #[tactic(auto, unfolding(crate::specs::Reading::event_at))]
    fn read(alloc: Global, tokens: &[Token]) -> Result<(EventTree, &[Token]), Stop> {
        let (name, rest) = read_name(tokens)?;
        let rest = kind(rest)?;
        let (carries, rest) = carried(alloc, rest)?;
        let rest = expect(rest, Mark::Semicolon)?;
        Ok((EventTree { name, carries }, rest))
    }
}

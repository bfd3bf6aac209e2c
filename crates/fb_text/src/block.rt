//! Declarations of block types.

ghost use Rattle.std.specs.Prelude.{◌≡◌, map};
ghost use Rattle.fb_lex.specs.Views.{tokens_of};
ghost use Rattle.fb_read.specs.Answers.{Gives};
ghost use Rattle.fb_tree.specs.Words.{word_of};
ghost use Rattle.fb_model.specs.Declarations as book;
ghost use Rattle.fb_model.specs.StructuredTextGrammar.{most_nested, most_nested_statements};
ghost use Rattle.st_parse.specs.ExpressionReading.{expression_at};
ghost use Rattle.st_parse.specs.Reading.{algorithm_at};
ghost use Rattle.fb_tree.specs.Files.{block_body_of, block_of};
ghost use Rattle.fb_text.specs.Reading.{basic_at, composite_at, body_at, block_at};

use crate::chart::chart;
use crate::network::network;
use crate::{Item, section};
use fb_lex::Token;
use fb_read::{Stop, expect, next_is, read_name};
use fb_tree::{BlockTree, BodyTree};
use fb_words::Mark;
use std::alloc::Global;

// The chart of a basic block.
#[tactic(auto, unfolding(crate::specs::Reading::basic_at))]
fn basic(alloc: Global, tokens: &[Token]) -> Result<(BodyTree, &[Token]), Stop>
    ensures { Gives (λ x. (block_body_of x.0, tokens_of x.1.now)) result (basic_at (expression_at most_nested) (algorithm_at most_nested most_nested_statements) (tokens_of tokens.now)) }
{
    let (chart, rest) = chart(alloc, tokens)?;
    Ok((BodyTree::Chart(chart), rest))
}

// The network of a composite.
#[tactic(auto, unfolding(crate::specs::Reading::composite_at))]
fn composite(alloc: Global, tokens: &[Token]) -> Result<(BodyTree, &[Token]), Stop>
    ensures { Gives (λ x. (block_body_of x.0, tokens_of x.1.now)) result (composite_at (tokens_of tokens.now)) }
{
    let (network, rest) = network(alloc, tokens)?;
    Ok((BodyTree::Network(network), rest))
}

// A network where FBS stands next, else a chart.
#[tactic(auto, unfolding(crate::specs::Reading::body_at))]
fn body(alloc: Global, tokens: &[Token]) -> Result<(BodyTree, &[Token]), Stop>
    ensures { Gives (λ x. (block_body_of x.0, tokens_of x.1.now)) result (body_at (expression_at most_nested) (algorithm_at most_nested most_nested_statements) (tokens_of tokens.now)) }
{
    if next_is(tokens, Mark::Fbs) {
        return composite(alloc, tokens);
    }
    basic(alloc, tokens)
}

impl Item for BlockTree {
    ghost Tree = { book.BlockTree };

    ghost view = { block_of };

    ghost reads = { block_at (expression_at most_nested) (algorithm_at most_nested most_nested_statements) };

    #[tactic(auto, unfolding(crate::specs::Reading::block_at))]
    fn read(alloc: Global, tokens: &[Token]) -> Result<(BlockTree, &[Token]), Stop> {
        let rest = expect(tokens, Mark::FunctionBlock)?;
        let (name, rest) = read_name(rest)?;
        let (event_inputs, rest) = section(alloc, rest, Mark::EventInput, Mark::EndEvent)?;
        let (event_outputs, rest) = section(alloc, rest, Mark::EventOutput, Mark::EndEvent)?;
        let (inputs, rest) = section(alloc, rest, Mark::VarInput, Mark::EndVar)?;
        let (outputs, rest) = section(alloc, rest, Mark::VarOutput, Mark::EndVar)?;
        let (body, rest) = body(alloc, rest)?;
        let rest = expect(rest, Mark::EndFunctionBlock)?;
        let block = BlockTree {
            name,
            event_inputs,
            event_outputs,
            inputs,
            outputs,
            body,
        };
        Ok((block, rest))
    }
}

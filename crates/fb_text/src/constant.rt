//! Constants.

ghost use Rattle.std.specs.Prelude.{◌≡◌};
ghost use Rattle.fb_lex.specs.Views.{tokens_of};
ghost use Rattle.fb_read.specs.Answers.{Gives};
ghost use Rattle.fb_tree.specs.Algorithms.{constant_of};
ghost use Rattle.fb_text.specs.Reading.{constant_at};

use fb_lex::Token;
use fb_read::{Stop, next_is};
use fb_tree::Constant;
use fb_words::Mark;
use st_parse::{literal, number};

/// A constant: a literal, or `-` and an untyped number.
#[tactic(auto, unfolding(crate::specs::Reading::constant_at))]
pub fn constant(tokens: &[Token]) -> Result<(Constant, &[Token]), Stop>
    ensures { Gives (λ x. (constant_of x.0, tokens_of x.1.now)) result (constant_at (tokens_of tokens.now)) }
{
    if next_is(tokens, Mark::Minus) {
        return number(&tokens[1..], true);
    }
    literal(tokens)
}

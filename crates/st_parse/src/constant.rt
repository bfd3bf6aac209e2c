//! Literals, and numbers with their signs.

ghost use Rattle.std.specs.Prelude.{◌≡◌};
ghost use Rattle.fb_lex.specs.Views.{tokens_of};
ghost use Rattle.fb_read.specs.Answers.{Gives};
ghost use Rattle.fb_tree.specs.Algorithms.{constant_of};
ghost use Rattle.st_parse.specs.ConstantReading.{number_at, marked_at, literal_at};

use fb_lex::{Kind, Token};
use fb_read::Stop;
use fb_tree::{Constant, Literal};
use fb_words::Mark;

/// The literal that stands next.
#[tactic(auto, unfolding(crate::specs::ConstantReading::literal_at))]
pub fn literal(tokens: &[Token]) -> Result<(Constant, &[Token]), Stop>
    ensures { Gives (λ x. (constant_of x.0, tokens_of x.1.now)) result (literal_at (tokens_of tokens.now)) }
{
    match tokens {
        [] => Err(Stop::Syntax(0)),
        [token, rest @ ..] => match &token.kind {
            Kind::Name(_) => Err(Stop::Syntax(tokens.len())),
            Kind::Number(size) => Ok((plain(Literal::Whole(false, *size), token.start), rest)),
            Kind::Typed(of, negative, size) => {
                Ok((
                    plain(Literal::Typed(*of, *negative, *size), token.start),
                    rest,
                ))
            }
            Kind::Duration(negative, size) => {
                Ok((
                    plain(Literal::Duration(*negative, *size), token.start),
                    rest,
                ))
            }
            Kind::Mark(mark) => marked(*mark, token.start, rest),
        },
    }
}

fn plain(value: Literal, at: usize) -> Constant
    ensures value { result.value ≡ value }
    ensures at { result.at ≡ at }
{
    Constant { value, at }
}

// TRUE or FALSE, before the tokens that are left.
fn marked(mark: Mark, at: usize, tokens: &[Token]) -> Result<(Constant, &[Token]), Stop>
    ensures { Gives (λ x. (constant_of x.0, tokens_of x.1.now)) result (marked_at mark at (tokens_of tokens.now)) }
{
    match mark {
        Mark::True => Ok((plain(Literal::Truth(true), at), tokens)),
        Mark::False => Ok((plain(Literal::Truth(false), at), tokens)),
        _ => Err(Stop::Syntax(tokens.len() + 1)),
    }
}

/// The number without a type that has to stand next, with its sign, which stood before it.
pub fn number(tokens: &[Token], negative: bool) -> Result<(Constant, &[Token]), Stop>
    ensures { Gives (λ x. (constant_of x.0, tokens_of x.1.now)) result (number_at negative (tokens_of tokens.now)) }
{
    match tokens {
        [] => Err(Stop::Syntax(0)),
        [token, rest @ ..] => match &token.kind {
            Kind::Number(size) => {
                let value = Literal::Whole(negative, *size);
                Ok((
                    Constant {
                        value,
                        at: token.start,
                    },
                    rest,
                ))
            }
            _ => Err(Stop::Syntax(tokens.len())),
        },
    }
}

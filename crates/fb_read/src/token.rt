//! One token.

ghost use Rattle.std.specs.Prelude.{◌≡◌, ◌<◌, length, OnOk};
ghost use Rattle.fb_lex.specs.Views.{tokens_of};
ghost use Rattle.fb_model.specs.StructuredTextGrammar.{begins_number};
ghost use Rattle.fb_read.specs.Reading.{next_is, expect, name_at, type_at, begins_name, offset_at};
ghost use Rattle.fb_read.specs.Answers.{Gives};
ghost use Rattle.fb_tree.specs.Words.{word_of};
ghost use Rattle.fb_read.specs.Faults.{end_of};

use crate::stop::Stop;
use fb_lex::{Kind, Token};
use fb_tree::Name;
use fb_words::{ElemType, Mark};

/// Whether the next token is this mark.
pub fn next_is(tokens: &[Token], mark: Mark) -> bool
    ensures { result ≡ next_is mark (tokens_of tokens.now) }
{
    match tokens {
        [] => false,
        [token, ..] => match &token.kind {
            Kind::Mark(found) => *found == mark,
            _ => false,
        },
    }
}

/// What is left behind this mark, which has to stand next.
pub fn expect(tokens: &[Token], mark: Mark) -> Result<&[Token], Stop>
    ensures { Gives (λ x. tokens_of x.now) result (expect mark (tokens_of tokens.now)) }
{
    if !next_is(tokens, mark) {
        return Err(Stop::Syntax(tokens.len()));
    }
    Ok(&tokens[1..])
}

/// The offset of the next token, or 0 where there is none.
pub fn next_offset(tokens: &[Token]) -> usize
    ensures { result ≡ offset_at (tokens_of tokens.now) }
{
    match tokens {
        [] => 0,
        [token, ..] => token.start,
    }
}

/// Where the last token ends, or 0 where there is none.
pub fn end_of(tokens: &[Token]) -> usize
    ensures { result ≡ end_of (tokens_of tokens.now) }
{
    match tokens.last() {
        Some(token) => token.end,
        None => 0,
    }
}

/// Whether a name stands next.
pub fn begins_name(tokens: &[Token]) -> bool
    ensures { result ≡ begins_name (tokens_of tokens.now) }
{
    match tokens {
        [] => false,
        [token, ..] => matches!(&token.kind, Kind::Name(_)),
    }
}

/// Whether a number without a type stands next.
pub fn begins_number(tokens: &[Token]) -> bool
    ensures { result ≡ begins_number (tokens_of tokens.now) }
{
    match tokens {
        [] => false,
        [token, ..] => matches!(&token.kind, Kind::Number(_)),
    }
}

/// The name that has to stand next.
pub fn read_name(tokens: &[Token]) -> Result<(Name, &[Token]), Stop>
    ensures { Gives (λ x. (word_of x.0, tokens_of x.1.now)) result (name_at (tokens_of tokens.now)) }
{
    match tokens {
        [token, rest @ ..] => match &token.kind {
            Kind::Name(text) => Ok((
                Name {
                    text: text.clone()?,
                    at: token.start,
                },
                rest,
            )),
            _ => Err(Stop::Syntax(tokens.len())),
        },
        [] => Err(Stop::Syntax(0)),
    }
}

/// The type whose name has to stand next.
#[tactic(auto, unfolding(crate::specs::Reading::type_at))]
pub fn read_type(tokens: &[Token]) -> Result<(ElemType, &[Token]), Stop>
    ensures { Gives (λ x. (x.0, tokens_of x.1.now)) result (type_at (tokens_of tokens.now)) }
{
    match tokens {
        [token, rest @ ..] => match &token.kind {
            Kind::Mark(mark) => match mark.elem_type() {
                Some(found) => Ok((found, rest)),
                None => Err(Stop::Syntax(tokens.len())),
            },
            _ => Err(Stop::Syntax(tokens.len())),
        },
        [] => Err(Stop::Syntax(0)),
    }
}

//! Names that stand for words.

ghost use Rattle.std.specs.Prelude.{◌≡◌, string_bytes};
ghost use Rattle.fb_lex.specs.Views.{tokens_of};
ghost use Rattle.fb_read.specs.Answers.{Gives};
ghost use Rattle.fb_text.specs.Reading.{word_at};

use fb_lex::{Kind, Token};
use fb_read::Stop;

/// What is left behind the name of these characters, which has to stand next.
pub fn word<'a>(tokens: &'a [Token], text: &str) -> Result<&'a [Token], Stop>
    ensures { Gives (λ x. tokens_of x.now) result (word_at text.now (tokens_of tokens.now)) }
{
    match tokens {
        [token, rest @ ..] => match &token.kind {
            Kind::Name(name) => {
                if name.as_str() == text {
                    Ok(rest)
                } else {
                    Err(Stop::Syntax(tokens.len()))
                }
            }
            _ => Err(Stop::Syntax(tokens.len())),
        },
        [] => Err(Stop::Syntax(0)),
    }
}

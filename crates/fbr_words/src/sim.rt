//! What the words of `fbr sim` ask for.

ghost use Rattle.std.specs.Prelude.{◌≡◌, option_map};
ghost use Rattle.clap.specs.Words.{rows_of, found_of};
ghost use Rattle.fbr_words.specs.Program as program;
ghost use Rattle.fbr_words.specs.Requests.{simulating_of};

use crate::given::{flag, given};
use crate::watched::{Watched, watched_in};
use clap::ArgMatches;
use fbr_texts::Meant;

/// The files of an application and of its certificate, what is watched of the world that runs a script, and whether answers are printed as JSON.
#[derive(Drop)]
pub struct Sim<'a> {
    pub app: &'a str,
    /// The text that it is with block types before it, where there are some. Words alone say none.
    pub meant: Option<Meant<'a>>,
    pub cert: &'a str,
    pub watched: Watched<'a>,
    pub is_json: bool,
}

/// What is to be simulated; `None` where there are more than 64 paths.
pub fn sim_in<'a>(words: &ArgMatches<'a>) -> Option<Sim<'a>>
    ensures { option_map simulating_of result ≡ program.simulating_in (rows_of (found_of words.now)) }
{
    Some(Sim {
        app: given(words, "APP")?,
        meant: None,
        cert: given(words, "CERT")?,
        watched: watched_in(words)?,
        is_json: flag(words, "json"),
    })
}

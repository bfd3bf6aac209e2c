//! What the words of `fbr play` ask for.

ghost use Rattle.std.specs.Prelude.{◌≡◌, option_map};
ghost use Rattle.clap.specs.Words.{rows_of, found_of};
ghost use Rattle.fbr_words.specs.Program as program;
ghost use Rattle.fbr_words.specs.Requests.{plays_of};

use crate::given::{flag, given};
use crate::watched::{Watched, names_in, watched_in};
use arrayvec::ArrayVec;
use clap::ArgMatches;
use fbr_texts::Meant;

/// The file of an application; those behind it, 64 at most: perhaps that of a certificate first, and stories; what is watched; and the file into which a report of
/// the stories is written as JUnit XML, where one is named; and whether JSON is printed.
#[derive(Drop)]
pub struct Play<'a> {
    pub app: &'a str,
    /// The text that it is with block types before it, where there are some. Words alone say none.
    pub meant: Option<Meant<'a>>,
    pub files: ArrayVec<&'a str, 64>,
    pub watched: Watched<'a>,
    pub report: Option<&'a str>,
    pub is_json: bool,
}

/// What is to be played; `None` where there are more than 64 files or paths.
pub fn play_in<'a>(words: &ArgMatches<'a>) -> Option<Play<'a>>
    ensures { option_map plays_of result ≡ program.plays_in (rows_of (found_of words.now)) }
{
    Some(Play {
        app: given(words, "APP")?,
        meant: None,
        files: names_in(words, "STORY")?,
        watched: watched_in(words)?,
        report: given(words, "report"),
        is_json: flag(words, "json"),
    })
}

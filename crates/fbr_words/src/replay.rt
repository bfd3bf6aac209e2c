//! What the words of `fbr replay` ask for.

ghost use Rattle.std.specs.Prelude.{◌≡◌, option_map};
ghost use Rattle.clap.specs.Words.{rows_of, found_of};
ghost use Rattle.fbr_words.specs.Program as program;
ghost use Rattle.fbr_words.specs.Requests.{replaying_of};

use crate::given::{flag, given};
use crate::watched::{Watched, watched_in};
use clap::ArgMatches;
use fbr_texts::Meant;

/// The files of an application, of its certificate, and of a record of one of its devices, what is told and watched, and whether it is told as JSON.
#[derive(Drop)]
pub struct Replay<'a> {
    pub app: &'a str,
    /// The text that it is with block types before it, where there are some. Words alone say none.
    pub meant: Option<Meant<'a>>,
    pub cert: &'a str,
    pub record: &'a str,
    /// Each arrival, dispatch, end and send.
    pub is_verbose: bool,
    /// The lines of OUTPUTs begin with the device's clock.
    pub has_clock: bool,
    pub watched: Watched<'a>,
    pub is_json: bool,
}

/// What is to be replayed; `None` where there are more than 64 paths.
pub fn replay_in<'a>(words: &ArgMatches<'a>) -> Option<Replay<'a>>
    ensures { option_map replaying_of result ≡ program.replaying_in (rows_of (found_of words.now)) }
{
    Some(Replay {
        app: given(words, "APP")?,
        meant: None,
        cert: given(words, "CERT")?,
        record: given(words, "RECORD")?,
        is_verbose: flag(words, "verbose"),
        has_clock: flag(words, "clock"),
        watched: watched_in(words)?,
        is_json: flag(words, "json"),
    })
}

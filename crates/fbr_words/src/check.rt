//! What the words of `fbr check` ask for.

ghost use Rattle.std.specs.Prelude.{◌≡◌, option_map};
ghost use Rattle.clap.specs.Words.{rows_of, found_of};
ghost use Rattle.fbr_words.specs.Program as program;
ghost use Rattle.fbr_words.specs.Requests.{checking_of};

use crate::given::{flag, given};
use clap::ArgMatches;
use fbr_texts::Meant;

/// The files of an application and of its certificate, whether notes count in the status, the names of those that are allowed, with commas between them, and whether
/// the verdict is printed as JSON; and whether all faults of the application's text are told.
#[derive(Clone, Copy)]
pub struct Check<'a> {
    pub app: &'a str,
    /// The text that it is with block types before it, where there are some. Words alone say none.
    pub meant: Option<Meant<'a>>,
    pub cert: &'a str,
    pub is_strict: bool,
    pub allowed: Option<&'a str>,
    pub is_json: bool,
    pub is_all: bool,
}

/// What is to be checked.
pub fn check_in<'a>(words: &ArgMatches<'a>) -> Option<Check<'a>>
    ensures { option_map checking_of result ≡ program.checking_in (rows_of (found_of words.now)) }
{
    Some(Check {
        app: given(words, "APP")?,
        meant: None,
        cert: given(words, "CERT")?,
        is_strict: flag(words, "strict"),
        allowed: given(words, "allow"),
        is_json: flag(words, "json"),
        is_all: flag(words, "all"),
    })
}

//! What the words of `fbr pack` ask for.

ghost use Rattle.std.specs.Prelude.{◌≡◌, option_map};
ghost use Rattle.clap.specs.Words.{rows_of, found_of};
ghost use Rattle.fbr_words.specs.Program as program;
ghost use Rattle.fbr_words.specs.Requests.{packing_of};

use crate::given::{given, into_in};
use clap::ArgMatches;
use fbr_texts::Meant;

/// The file of an application, and the file that its text is written into, where one is named.
#[derive(Clone, Copy)]
pub struct Pack<'a> {
    pub app: &'a str,
    /// The text that it is with block types before it, where there are some. Words alone say none.
    pub meant: Option<Meant<'a>>,
    pub into: Option<&'a str>,
}

/// What is to be packed.
pub fn pack_in<'a>(words: &ArgMatches<'a>) -> Option<Pack<'a>>
    ensures { option_map packing_of result ≡ program.packing_in (rows_of (found_of words.now)) }
{
    Some(Pack {
        app: given(words, "APP")?,
        meant: None,
        into: into_in(words),
    })
}

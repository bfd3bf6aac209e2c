//! What words give under a name.

ghost use Rattle.std.specs.Prelude.{◌≡◌, option_map};
ghost use Rattle.clap.specs.Words.{rows_of, found_of, first_of};
ghost use Rattle.fbr_words.specs.Program as program;

use clap::ArgMatches;

/// The text that is given under a name.
pub fn given<'a>(words: &ArgMatches<'a>, id: &str) -> Option<&'a str>
    ensures { option_map (λ text. text.now) result ≡ first_of id.now (rows_of (found_of words.now)) }
{
    words.get_str(id)
}

// Whether a flag is given.
fn is_set(word: Option<&str>) -> bool
    ensures { result ≡ program.is_set (option_map (λ text. text.now) word.entry) }
{
    match word {
        Some(word) => word == "true",
        None => false,
    }
}

/// Whether the flag of this name is given.
pub fn flag(words: &ArgMatches<'_>, id: &str) -> bool
    ensures { result ≡ program.is_set (first_of id.now (rows_of (found_of words.now))) }
{
    is_set(given(words, id))
}

// The file that a word names, which is not standard output.
fn file_in<'a>(word: Option<&'a str>) -> Option<&'a str>
    ensures { option_map (λ name. name.now) result ≡ program.into_in (option_map (λ text. text.now) word.entry) }
{
    match word {
        Some(name) => { if name == "-" { None } else { Some(name) } }
        None => None,
    }
}

/// The file that words name to be written; none where that is standard output.
pub fn into_in<'a>(words: &ArgMatches<'a>) -> Option<&'a str>
    ensures { option_map (λ name. name.now) result ≡ program.into_of (rows_of (found_of words.now)) }
{
    file_in(given(words, "output"))
}

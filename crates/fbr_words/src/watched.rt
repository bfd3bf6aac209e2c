//! What words ask to be watched of a run.

ghost use Rattle.std.specs.Prelude.{◌≡◌, Some, map, option_map};
ghost use Rattle.clap.specs.Words.{rows_of, found_of, all_of};
ghost use Rattle.fbr_words.specs.Program as program;
ghost use Rattle.fbr_words.specs.Requests.{watching_of};

use crate::given::given;
use arrayvec::ArrayVec;
use clap::ArgMatches;

/// What is watched of a run: the paths whose changes are told, 64 at most; and the files into which is written what has changed and what ran, where they are named.
#[derive(Drop)]
pub struct Watched<'a> {
    pub paths: ArrayVec<&'a str, 64>,
    /// What has changed, as a value change dump.
    pub dump: Option<&'a str>,
    /// What has changed, as a table.
    pub table: Option<&'a str>,
    /// What ran when, as a picture.
    pub timeline: Option<&'a str>,
}

// The names that words are, at most 64.
fn read_names<'a>(words: &[&'a str]) -> Option<ArrayVec<&'a str, 64>>
    ensures { option_map (λ names. map (λ name. name.now) names.items) result ≡ program.names_in (Some (map (λ word. word.now) words.now)) }
{
    let mut names = ArrayVec::new();
    if words.len() > 64 {
        return None;
    }
    for word in words {
        names.push(*word);
    }
    Some(names)
}

/// The names that are given under a word; none where none is, and `None` where there are more than 64.
pub fn names_in<'a>(words: &ArgMatches<'a>, id: &str) -> Option<ArrayVec<&'a str, 64>>
    ensures { option_map (λ names. map (λ name. name.now) names.items) result ≡ program.names_in (all_of id.now (rows_of (found_of words.now))) }
{
    match words.get_raw(id) {
        Some(words) => read_names(words),
        None => Some(ArrayVec::new()),
    }
}

/// What is to be watched; `None` where there are more than 64 paths.
pub fn watched_in<'a>(words: &ArgMatches<'a>) -> Option<Watched<'a>>
    ensures { option_map watching_of result ≡ program.watching_in (rows_of (found_of words.now)) }
{
    Some(Watched {
        paths: names_in(words, "watch")?,
        dump: given(words, "vcd"),
        table: given(words, "csv"),
        timeline: given(words, "timeline"),
    })
}

//! What the words of `fbr bound` ask for.

ghost use Rattle.std.specs.Prelude.{◌≡◌, ◌≤◌, Option, IfSome, option_map, codes};
ghost use Rattle.clap.specs.Words.{rows_of, found_of, first_of};
ghost use Rattle.fbr_words.specs.Program as program;
ghost use Rattle.fbr_words.specs.Requests.{meant_of, ranges_of, sought_of};
ghost use Rattle.fbr_words.specs.Program.{least_sought};

use crate::given::{flag, given, into_in};
use clap::ArgMatches;
use fb_numbers::read_number;
use fbr_texts::Meant;

/// Which ranges a certificate gets: those of the finder's rounds; others where nothing is clear under these; or such as keep the rows RANGE of a file.
#[derive(Clone, Copy)]
pub enum Ranges<'a> {
    Rounds,
    Searched,
    Within(&'a str),
}

/// A certificate of the application in a file, also of its steps on all devices where it is said how often datagrams are delivered; and the file that it is
/// written into, where one is named.
#[derive(Clone, Copy)]
pub struct Bound<'a> {
    pub app: &'a str,
    /// The text that it is with block types before it, where there are some. Words alone say none.
    pub meant: Option<Meant<'a>>,
    /// 1 to 255.
    pub repeats: Option<u8>,
    pub into: Option<&'a str>,
    pub ranges: Ranges<'a>,
    /// How often each queue has room for its largest arrival, where that is said.
    pub room: Option<u8>,
    /// Notes count in the status.
    pub is_strict: bool,
    /// The names of notes that are allowed, with commas between them.
    pub allowed: Option<&'a str>,
    /// JSON is printed.
    pub is_json: bool,
    /// All faults of the application's text are told.
    pub is_all: bool,
}

impl<'a> Bound<'a> {
    /// A request for the certificate with the least numbers, for `repeats`, 1 or more, over all devices too.
    pub fn least(app: &'a str, meant: Option<Meant<'a>>, repeats: Option<u8>) -> Bound<'a>
        ensures asked { sought_of result ≡ least_sought app.now (meant_of meant.entry) repeats }
        ensures often { result.repeats ≡ repeats }
    {
        Bound {
            app,
            meant,
            repeats,
            into: None,
            ranges: Ranges::Rounds,
            room: None,
            is_strict: false,
            allowed: None,
            is_json: false,
            is_all: false,
        }
    }
}

// A number of 1 to 255.
fn small(number: Option<u16>) -> Option<u8>
    ensures value { result ≡ program.small_in number }
    ensures some { IfSome result (λ n. 1 ≤ n) }
{
    match u8::try_from(number?) {
        Ok(0) => None,
        Ok(number) => Some(number),
        Err(_) => None,
    }
}

/// How often, where the word says it; nothing where it is no number of 1 to 255.
pub fn often(word: Option<&str>) -> Option<Option<u8>>
    ensures value { result ≡ program.repeats_in (option_map (λ text. text.now) word.entry) }
    ensures some { IfSome result (λ r. IfSome r (λ n. 1 ≤ n)) }
{
    match word {
        None => Some(None),
        Some(word) => match small(read_number(word)) {
            Some(number) => Some(Some(number)),
            None => None,
        },
    }
}

/// How often words say under a name, where they do; nothing where that is no number of 1 to 255.
pub fn often_in(words: &ArgMatches<'_>, id: &str) -> Option<Option<u8>>
    ensures value { result ≡ program.repeats_in (first_of id.now (rows_of (found_of words.now))) }
    ensures some { IfSome result (λ r. IfSome r (λ n. 1 ≤ n)) }
{
    often(given(words, id))
}

// Which ranges are asked for, by the name of a file, and whether there is to be a search.
fn ranges_by<'a>(file: Option<&'a str>, is_search: bool) -> Ranges<'a>
    ensures { ranges_of result ≡ program.ranges_by (option_map (λ text. text.now) file.entry) is_search }
{
    match file {
        Some(name) => Ranges::Within(name),
        None => {
            if is_search {
                Ranges::Searched
            } else {
                Ranges::Rounds
            }
        }
    }
}

/// What is asked for; `None` where a number is none.
pub fn bound_in<'a>(words: &ArgMatches<'a>) -> Option<Bound<'a>>
    ensures asked { option_map sought_of result ≡ program.sought_in (rows_of (found_of words.now)) }
    ensures some { IfSome result (λ w. IfSome w.repeats (λ n. 1 ≤ n)) }
{
    Some(Bound {
        app: given(words, "APP")?,
        meant: None,
        repeats: often_in(words, "repeats")?,
        into: into_in(words),
        ranges: ranges_by(given(words, "ranges"), flag(words, "search")),
        room: often_in(words, "room")?,
        is_strict: flag(words, "strict"),
        allowed: given(words, "allow"),
        is_json: flag(words, "json"),
        is_all: flag(words, "all"),
    })
}

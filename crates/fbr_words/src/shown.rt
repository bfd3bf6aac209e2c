//! What the words of `fbr explain` and `fbr draw` ask for.

ghost use Rattle.std.specs.Prelude.{◌≡◌, ◌≤◌, IfSome, option_map};
ghost use Rattle.clap.specs.Words.{rows_of, found_of};
ghost use Rattle.fbr_words.specs.Program as program;
ghost use Rattle.fbr_words.specs.Requests.{drawing_of, question_of};

use crate::bound::often;
use crate::given::{flag, given, into_in};
use clap::ArgMatches;
use fb_numbers::read_number;
use fbr_texts::Meant;

/// What people are told where the number behind `--repeats` or `--room` is none.
pub const UNCOUNTED: &str = "fbr: `--repeats` and `--room` take a number of 1 to 255";

// What people are told where `--repeats` stands beside a certificate.
const REPEATED: &str =
    "fbr: `--repeats` does not go with a certificate: its own row REPEATS says how often a datagram is delivered. Leave out `--repeats`; or leave out CERT, so that a certificate for `--repeats` is found";

// What people are told where something stands beside a number that is explained.
const UNPAIRED: &str =
    "fbr: a number is explained alone, as in `fbr explain 43`, without a certificate or `--repeats`. If the application's file has a number for its name, write its folder too, as in `./43`";

/// The number of a refusal or a denial, or else the file of an application; the file of a certificate, where one is named; how often datagrams are delivered,
/// where that is said; whether notes count in the status; the names of those that are allowed, with commas between them; whether JSON is printed; and whether all faults
/// of the application's text are told.
#[derive(Clone, Copy)]
pub struct Explain<'a> {
    pub what: &'a str,
    /// The text that it is with block types before it, where there are some. Words alone say none.
    pub meant: Option<Meant<'a>>,
    pub cert: Option<&'a str>,
    /// 1 to 255.
    pub repeats: Option<u8>,
    pub is_strict: bool,
    pub allowed: Option<&'a str>,
    pub is_json: bool,
    pub is_all: bool,
}

/// A system in a file, with a certificate in another, or else with the one that is found; whether composites are without boxes; the block type whose chart is drawn,
/// where it is one; and the file that is written, where one is named.
#[derive(Clone, Copy)]
pub struct Draw<'a> {
    pub app: &'a str,
    /// The text that it is with block types before it, where there are some. Words alone say none.
    pub meant: Option<Meant<'a>>,
    pub cert: Option<&'a str>,
    /// 1 to 255.
    pub repeats: Option<u8>,
    pub is_flat: bool,
    pub chart: Option<&'a str>,
    pub into: Option<&'a str>,
}

// How often datagrams are delivered beside a certificate; nothing where both are named, or where a number is none.
fn often_beside(cert: Option<&str>, word: Option<&str>) -> Option<Option<u8>>
    ensures value { result ≡ program.often_beside (option_map (λ text. text.now) cert.entry) (option_map (λ text. text.now) word.entry) }
    ensures some { IfSome result (λ r. IfSome r (λ n. 1 ≤ n)) }
{
    match cert {
        None => often(word),
        Some(_) => match word {
            None => Some(None),
            Some(_) => None,
        },
    }
}

// The same beside a number that is explained; nothing where either is named.
fn often_alone(cert: Option<&str>, word: Option<&str>) -> Option<Option<u8>>
    ensures value { result ≡ program.often_alone (option_map (λ text. text.now) cert.entry) (option_map (λ text. text.now) word.entry) }
    ensures some { IfSome result (λ r. IfSome r (λ n. 1 ≤ n)) }
{
    match cert {
        None => match word {
            None => Some(None),
            Some(_) => None,
        },
        Some(_) => None,
    }
}

// Which of these it is, by the number that is explained.
fn often_asked(number: Option<u16>, cert: Option<&str>, word: Option<&str>) -> Option<Option<u8>>
    ensures value { result ≡ program.often_asked number (option_map (λ text. text.now) cert.entry) (option_map (λ text. text.now) word.entry) }
    ensures some { IfSome result (λ r. IfSome r (λ n. 1 ≤ n)) }
{
    match number {
        None => often_beside(cert, word),
        Some(_) => often_alone(cert, word),
    }
}

/// What people are told where the words of `explain` or `draw` ask for nothing: a number of deliveries is none, or stands beside a certificate; or something stands
/// beside a number that is explained.
pub fn misfit_in(words: &ArgMatches<'_>, is_explained: bool) -> &'static str {
    let is_number = match given(words, "APP") {
        Some(what) => read_number(what).is_some(),
        None => false,
    };
    if is_explained && is_number {
        return UNPAIRED;
    }
    match (given(words, "CERT"), given(words, "repeats")) {
        (Some(_), Some(_)) => REPEATED,
        _ => UNCOUNTED,
    }
}

/// What `explain` is asked; `None` where a number is none, or words do not go together.
pub fn explain_in<'a>(words: &ArgMatches<'a>) -> Option<Explain<'a>>
    ensures asked { option_map question_of result ≡ program.question_in (rows_of (found_of words.now)) }
    ensures some { IfSome result (λ q. IfSome q.repeats (λ n. 1 ≤ n)) }
{
    let what = given(words, "APP")?;
    let cert = given(words, "CERT");
    Some(Explain {
        what,
        meant: None,
        cert,
        repeats: often_asked(read_number(what), cert, given(words, "repeats"))?,
        is_strict: flag(words, "strict"),
        allowed: given(words, "allow"),
        is_json: flag(words, "json"),
        is_all: flag(words, "all"),
    })
}

/// What `draw` is asked for; `None` where a number is none, or words do not go together.
pub fn draw_in<'a>(words: &ArgMatches<'a>) -> Option<Draw<'a>>
    ensures asked { option_map drawing_of result ≡ program.drawing_in (rows_of (found_of words.now)) }
    ensures some { IfSome result (λ q. IfSome q.repeats (λ n. 1 ≤ n)) }
{
    let cert = given(words, "CERT");
    Some(Draw {
        app: given(words, "APP")?,
        meant: None,
        cert,
        repeats: often_beside(cert, given(words, "repeats"))?,
        is_flat: flag(words, "flat"),
        chart: given(words, "chart"),
        into: into_in(words),
    })
}

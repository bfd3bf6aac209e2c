//! What the words of `fbr time` ask for.

ghost use Rattle.std.specs.Prelude.{◌≡◌, option_map};
ghost use Rattle.clap.specs.Words.{rows_of, found_of};
ghost use Rattle.fbr_words.specs.Program as program;
ghost use Rattle.fbr_words.specs.Requests.{timing_of, way_of};

use crate::given::{flag, given};
use clap::ArgMatches;
use fbr_texts::Meant;

/// The way from an arrival to a block, both by their paths without the device's and the resource's name, or with them.
#[derive(Clone, Copy)]
pub struct Way<'a> {
    pub from: &'a str,
    pub to: &'a str,
}

/// The file of an application and that of its certificate; the file of the prices, the rates of arrivals and a way, if they are given; and whether JSON is printed.
#[derive(Clone, Copy)]
pub struct Time<'a> {
    pub app: &'a str,
    /// The text that it is with block types before it, where there are some. Words alone say none.
    pub meant: Option<Meant<'a>>,
    pub cert: &'a str,
    pub prices: Option<&'a str>,
    /// How often events come at arrivals, as `PUMP.START=10/s,PUMP.STOP=1/min`.
    pub rates: Option<&'a str>,
    pub way: Option<Way<'a>>,
    pub is_json: bool,
}

/// What people are told where a way has one end alone.
pub const HALF_WAY: &str = "fbr: `--from` and `--to` stand together";

// A way, where both ends are named; nothing where one is named alone.
fn way_by<'a>(from: Option<&'a str>, to: Option<&'a str>) -> Option<Option<Way<'a>>>
    ensures { option_map (option_map way_of) result ≡ program.way_by (option_map (λ text. text.now) from.entry) (option_map (λ text. text.now) to.entry) }
{
    match from {
        None => match to {
            None => Some(None),
            Some(_) => None,
        },
        Some(from) => match to {
            None => None,
            Some(to) => Some(Some(Way { from, to })),
        },
    }
}

/// What is to be timed; `None` where a way has one end alone.
pub fn time_in<'a>(words: &ArgMatches<'a>) -> Option<Time<'a>>
    ensures { option_map timing_of result ≡ program.timing_in (rows_of (found_of words.now)) }
{
    Some(Time {
        app: given(words, "APP")?,
        meant: None,
        cert: given(words, "CERT")?,
        prices: given(words, "calibration"),
        rates: given(words, "rate"),
        way: way_by(given(words, "from"), given(words, "to"))?,
        is_json: flag(words, "json"),
    })
}

//! What the words of `fbr serve` ask for.

ghost use Rattle.std.specs.Prelude.{◌≡◌, option_map};
ghost use Rattle.clap.specs.Words.{rows_of, found_of};
ghost use Rattle.fbr_words.specs.Program as program;
ghost use Rattle.fbr_words.specs.Requests.{boot_of, life_of, network_of, service_of, telling_of};

use crate::given::{flag, given};
use crate::guard::{Guard, guard_in};
use crate::network::{Network, network_in};
use clap::ArgMatches;
use fb_numbers::{read_long_number, read_wide_number};
use fbr_texts::Meant;

/// Where the boot comes from that messages of format 2 are stamped with.
#[derive(Clone, Copy)]
pub enum Boot<'a> {
    /// It is this number.
    Number(u32),
    /// The file of this name holds it, and gets the next one.
    File(&'a str),
}

/// How long a device runs.
#[derive(Clone, Copy)]
pub struct Life<'a> {
    pub boot: Boot<'a>,
    /// So many turns at most; 2^64 - 1 where none are said.
    pub turns: u64,
    /// It also ends where standard input does.
    pub until_eof: bool,
    /// The new file that its turns are recorded in.
    pub record: Option<&'a str>,
    /// Each line of the record goes to the disk at once.
    pub is_synced: bool,
}

/// What a device tells while it runs.
#[derive(Clone, Copy)]
pub struct Telling {
    /// Each arrival, dispatch, end and send.
    pub is_verbose: bool,
    /// The sums each time so many seconds have passed.
    pub summary: Option<u32>,
    /// The lines of OUTPUTs begin with the device's clock.
    pub has_clock: bool,
    /// A line that cannot be written ends the device.
    pub is_strict: bool,
}

/// A device of two files, the network that it is part of, how long it runs, what it tells, and what is checked of datagrams.
#[derive(Drop)]
pub struct Serve<'a> {
    pub app: &'a str,
    /// The text that it is with block types before it, where there are some. Words alone say none.
    pub meant: Option<Meant<'a>>,
    pub cert: &'a str,
    pub device: &'a str,
    pub network: Network,
    pub life: Life<'a>,
    pub telling: Telling,
    pub guard: Guard<'a>,
}

// The boot: a number, a file, or 0 where neither is given; both are none.
fn boot_by<'a>(number: Option<&'a str>, file: Option<&'a str>) -> Option<Boot<'a>>
    ensures { option_map boot_of result ≡ program.boot_by (option_map (λ text. text.now) number.entry) (option_map (λ text. text.now) file.entry) }
{
    match (number, file) {
        (None, None) => Some(Boot::Number(0)),
        (None, Some(name)) => Some(Boot::File(name)),
        (Some(word), None) => match read_long_number(word) {
            Some(number) => Some(Boot::Number(number)),
            None => None,
        },
        (Some(_), Some(_)) => None,
    }
}

// How many turns, as many as there can be where nothing is said.
fn turns_by(word: Option<&str>) -> Option<u64>
    ensures { result ≡ program.turns_by (option_map (λ text. text.now) word.entry) }
{
    match word {
        Some(word) => read_wide_number(word),
        None => Some(u64::MAX),
    }
}

// A number of seconds, where one is said.
fn seconds_by(word: Option<&str>) -> Option<Option<u32>>
    ensures { result ≡ program.seconds_by (option_map (λ text. text.now) word.entry) }
{
    match word {
        None => Some(None),
        Some(word) => match read_long_number(word) {
            None | Some(0) => None,
            seconds => Some(seconds),
        },
    }
}

// Whether each line of a record goes to the disk, which is nothing where there is no record.
fn synced_by(recorded: Option<&str>, is_synced: bool) -> Option<bool>
    ensures { result ≡ program.synced_by (option_map (λ name. name.now) recorded.entry) is_synced }
{
    match recorded {
        Some(_) => Some(is_synced),
        None => { if is_synced { None } else { Some(false) } }
    }
}

// How long it runs.
fn life_in<'a>(words: &ArgMatches<'a>) -> Option<Life<'a>>
    ensures { option_map life_of result ≡ program.life_in (rows_of (found_of words.now)) }
{
    Some(Life {
        boot: boot_by(given(words, "boot"), given(words, "boot-file"))?,
        turns: turns_by(given(words, "turns"))?,
        until_eof: flag(words, "until-eof"),
        record: given(words, "record"),
        is_synced: synced_by(given(words, "record"), flag(words, "sync"))?,
    })
}

// What it tells.
fn telling_in(words: &ArgMatches<'_>) -> Option<Telling>
    ensures { option_map telling_of result ≡ program.telling_in (rows_of (found_of words.now)) }
{
    Some(Telling {
        is_verbose: flag(words, "verbose"),
        summary: seconds_by(given(words, "summary"))?,
        has_clock: flag(words, "clock"),
        is_strict: flag(words, "stop-on-lost-output"),
    })
}

/// What is asked for; `None` where a number or an address is none, there are more than 64 peers or senders, a boot is given twice, `--sync` without
/// `--record`, or nothing is said of what is checked at an address that others reach.
pub fn serve_in<'a>(words: &ArgMatches<'a>) -> Option<Serve<'a>>
    ensures { option_map service_of result ≡ program.service_in (rows_of (found_of words.now)) }
{
    Some(Serve {
        app: given(words, "APP")?,
        meant: None,
        cert: given(words, "CERT")?,
        device: given(words, "DEVICE")?,
        life: life_in(words)?,
        telling: telling_in(words)?,
        guard: guard_in(words)?,
        network: network_in(words)?,
    })
}

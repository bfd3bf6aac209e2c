//! Lines of a script.

ghost use Rattle.std.specs.Prelude.{◌≡◌, [], ◌∷◌, codes, if◌then◌else◌};
ghost use Rattle.fb_model.specs.CertificateText.{words};
ghost use Rattle.fb_script.specs.Lines.{is_verb};
ghost use Rattle.fb_script.specs.Views.{texts, AreValues, IsRead, IsLine};
ghost use Rattle.fb_script.specs.declared.line.Misread.TheVariants.{Count, Verb};
ghost use Rattle.fb_script.specs.declared.line.LineFault.TheVariants.{OutOfMemory};

use fb_numbers::{read_number, read_value, read_wide_number, words_of};
use std::alloc::{AllocError, AllocFailed, Global};

/// A line that has words.
#[derive(Drop)]
pub enum Line<'a> {
    /// `offer DEVICE NUMBER VALUES`: an arrival at the INPUT of a number, with its values.
    Offer {
        device: &'a str,
        number: u16,
        values: Vec<i64>,
    },
    /// `deliver NUMBER DEVICE`: the datagram of a number, of those that all devices have sent, comes to the device.
    Deliver {
        number: u64,
        device: &'a str,
    },
    /// `tick DEVICE NOW`: the clock comes to a moment, in milliseconds.
    Tick {
        device: &'a str,
        now: u64,
    },
    /// `dispatch DEVICE RESOURCE`: the first pending entry of a resource is to run.
    Dispatch {
        device: &'a str,
        resource: &'a str,
    },
    /// `root NUMBER`: how many steps a root has taken so far.
    Root {
        number: u64,
    },
}

/// Why words are no command. A place is that of a word, counted from 1.
#[derive(Clone, Copy)]
pub enum Misread {
    /// The first word is none of `offer`, `deliver`, `tick`, `dispatch` and `root`.
    Verb,
    /// There are too few words behind it, or too many.
    Count,
    /// The word of this place is no number of 0 to 65535.
    Number(usize),
    /// The word of this place is no number of 0 to 18446744073709551615.
    WideNumber(usize),
    /// The word of this place is no number of LINT.
    Value(usize),
}

/// Why a line is not read.
#[derive(Clone, Copy)]
pub enum LineFault {
    /// Memory ran out.
    OutOfMemory,
    /// The words are none of the forms, or one of them is no number that fits.
    Form(Misread),
}

impl LineFault {
    ghost use Rattle.fb_script.specs.Codes.{code_of};

    /// The number of the refusal.
    pub fn code(&self) -> u8
        ensures { result ≡ code_of self.now }
    {
        match self {
            LineFault::OutOfMemory => 9,
            LineFault::Form(_) => 60,
        }
    }
}

impl From<AllocError> for LineFault {
    ghost from_gives = { λ _ e. e ≡ OutOfMemory };

    fn from(_: AllocError) -> LineFault {
        LineFault::OutOfMemory
    }
}

impl<T: Drop> From<AllocFailed<T>> for LineFault {
    ghost from_gives = { λ _ e. e ≡ OutOfMemory };

    fn from(_: AllocFailed<T>) -> LineFault {
        LineFault::OutOfMemory
    }
}

fn read_values(alloc: Global, words: &[&str]) -> Result<Vec<i64>, LineFault>
    ensures { AreValues (texts words.now) result }
{
    let mut values = Vec::new(alloc);
    for word in words {
        match read_value(word) {
            Some(value) => values.push(value)?,
            None => {
                let place = values.len().saturating_add(4);
                return Err(LineFault::Form(Misread::Value(place)));
            }
        }
    }
    Ok(values)
}

fn read_offer<'a>(
    alloc: Global,
    device: &'a str,
    number: &str,
    values: &[&str],
) -> Result<Line<'a>, LineFault>
    ensures { IsRead (codes "offer" ∷ device.now ∷ number.now ∷ texts values.now) result }
{
    match read_number(number) {
        Some(number) => match read_values(alloc, values) {
            Ok(values) => Ok(Line::Offer {
                device,
                number,
                values,
            }),
            Err(fault) => Err(fault),
        },
        None => Err(LineFault::Form(Misread::Number(3))),
    }
}

fn read_deliver<'a>(number: &str, device: &'a str) -> Result<Line<'a>, LineFault>
    ensures { IsRead (codes "deliver" ∷ number.now ∷ device.now ∷ []) result }
{
    match read_wide_number(number) {
        Some(number) => Ok(Line::Deliver { number, device }),
        None => Err(LineFault::Form(Misread::WideNumber(2))),
    }
}

fn read_tick<'a>(device: &'a str, now: &str) -> Result<Line<'a>, LineFault>
    ensures { IsRead (codes "tick" ∷ device.now ∷ now.now ∷ []) result }
{
    match read_wide_number(now) {
        Some(now) => Ok(Line::Tick { device, now }),
        None => Err(LineFault::Form(Misread::WideNumber(3))),
    }
}

// What is wrong with words that begin so, if it is no number: their count, or the first of them.
fn miscounted(word: &str) -> Misread
    ensures { result ≡ (if is_verb word.now then Count else Verb) }
{
    if word == "offer"
        || word == "deliver"
        || word == "tick"
        || word == "dispatch"
        || word == "root"
    {
        Misread::Count
    } else {
        Misread::Verb
    }
}

// The command of two words.
fn read_two<'a>(word: &str, second: &str) -> Result<Line<'a>, LineFault>
    ensures { IsRead (word.now ∷ second.now ∷ []) result }
{
    if word != "root" {
        return Err(LineFault::Form(miscounted(word)));
    }
    match read_wide_number(second) {
        Some(number) => Ok(Line::Root { number }),
        None => Err(LineFault::Form(Misread::WideNumber(2))),
    }
}

// The command of three words and more.
fn read_by<'a>(
    alloc: Global,
    word: &str,
    second: &'a str,
    third: &'a str,
    rest: &[&str],
) -> Result<Line<'a>, LineFault>
    ensures { IsRead (word.now ∷ second.now ∷ third.now ∷ texts rest.now) result }
{
    if word == "offer" {
        return read_offer(alloc, second, third, rest);
    }
    if word == "deliver" && rest.is_empty() {
        return read_deliver(second, third);
    }
    if word == "tick" && rest.is_empty() {
        return read_tick(second, third);
    }
    if word == "dispatch" && rest.is_empty() {
        return Ok(Line::Dispatch {
            device: second,
            resource: third,
        });
    }
    Err(LineFault::Form(miscounted(word)))
}

// The command that words are.
fn read_words<'a>(alloc: Global, words: &[&'a str]) -> Result<Line<'a>, LineFault>
    ensures { IsRead (texts words.now) result }
{
    match words {
        [word, second] => read_two(word, second),
        [word, second, third, rest @ ..] => read_by(alloc, word, second, third, rest),
        [word] => Err(LineFault::Form(miscounted(word))),
        [] => Err(LineFault::Form(Misread::Verb)),
    }
}

/// The command of a line, and `None` where it has no words.
pub fn read_line(alloc: Global, line: &str) -> Result<Option<Line<'_>>, LineFault>
    ensures { IsLine (words line.now) result }
{
    match words_of(alloc, line) {
        Ok(words) => {
            if words.is_empty() {
                return Ok(None);
            }
            match read_words(alloc, words.as_slice()) {
                Ok(line) => Ok(Some(line)),
                Err(fault) => Err(fault),
            }
        }
        Err(_) => Err(LineFault::OutOfMemory),
    }
}

//! The row that a certificate lacks.

use crate::term::Of;
use fb_cert::{Amount, Certificate};
use fb_ranges::Interval;
use fbr_places::Declared;

/// The numbers of a row, where they are known.
#[derive(Clone, Copy)]
pub enum Numbers {
    /// Steps and places.
    Amount(Option<Amount>),
    Number(Option<u64>),
    Range(Option<Interval>),
}

/// A row that a certificate lacks: its kind, what it is of, and the numbers that another certificate has there.
#[derive(Clone, Copy)]
pub struct Missing<'a> {
    pub row: &'static str,
    pub of: Of<'a>,
    pub numbers: Numbers,
}

// The row of a state that a certificate lacks.
fn missing_state(
    certificate: &Certificate,
    found: Option<&Certificate>,
    path: &str,
) -> (&'static str, Numbers) {
    if certificate.charge(path).is_none() {
        let row = match found {
            Some(all) => all.charge(path),
            None => None,
        };
        return ("CHARGE", Numbers::Amount(row));
    }
    let row = match found {
        Some(all) => all.far_state(path),
        None => None,
    };
    ("FARSTATE", Numbers::Number(row))
}

// The row of an event input or arrival that a certificate lacks.
fn missing_event(
    certificate: &Certificate,
    found: Option<&Certificate>,
    path: &str,
) -> (&'static str, Numbers) {
    if certificate.weight(path).is_none() {
        let row = match found {
            Some(all) => all.weight(path),
            None => None,
        };
        return ("WEIGHT", Numbers::Amount(row));
    }
    let row = match found {
        Some(all) => all.far(path),
        None => None,
    };
    ("FAR", Numbers::Number(row))
}

// The row of a resource.
fn missing_depth(found: Option<&Certificate>, path: &str) -> (&'static str, Numbers) {
    let row = match found {
        Some(all) => all.depth(path),
        None => None,
    };
    ("DEPTH", Numbers::Number(row))
}

// The row of a variable.
fn missing_range(found: Option<&Certificate>, path: &str) -> (&'static str, Numbers) {
    let row = match found {
        Some(all) => all.range(path),
        None => None,
    };
    ("RANGE", Numbers::Range(row))
}

/// The row of a declared place that a certificate lacks, with the numbers that another one has there.
pub fn missing_row<'a>(
    declared: Option<Declared<'_>>,
    certificate: &Certificate,
    found: Option<&Certificate>,
    path: &'a str,
) -> Option<Missing<'a>> {
    let (row, numbers) = match declared? {
        Declared::Resource(_) => missing_depth(found, path),
        Declared::State(_, _) => missing_state(certificate, found, path),
        Declared::Event(_) | Declared::Port(_) => missing_event(certificate, found, path),
        Declared::Variable(_, _) => missing_range(found, path),
        _ => return None,
    };
    Some(Missing {
        row,
        of: Of::Path(path),
        numbers,
    })
}

/// The row of a channel that a certificate lacks, with the number that another one has there.
pub fn missing_channel<'a>(found: Option<&Certificate>, number: u16) -> Missing<'a> {
    let row = match found {
        Some(all) => all.channel(number),
        None => None,
    };
    Missing {
        row: "CHANNEL",
        of: Of::Channel(number),
        numbers: Numbers::Number(row),
    }
}

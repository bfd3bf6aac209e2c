//! How often events come at arrivals.

use crate::halt::Halt;
use crate::way::{arrival_of, leaf_of};
use fb_flat::{Body, Flat, Leaf, Source};
use fb_numbers::read_wide_number;
use fb_types_services::Service;

/// How many picoseconds a second and a millisecond have.
const SECOND: u64 = 1_000_000_000_000;

const MILLISECOND: u64 = 1_000_000_000;

/// How often events come at an arrival at most.
#[derive(Clone, Copy)]
pub(crate) enum Comes {
    /// Each at least so many picoseconds after the one before.
    Apart(u64),
    /// Once, when the device starts.
    Once,
    /// Nobody has said.
    Unsaid,
}

impl Comes {
    /// How many events come at most while so many picoseconds pass, with one that came just before.
    pub(crate) fn count(self, picoseconds: u64) -> u64 {
        match self {
            Comes::Apart(period) => picoseconds.div_ceil(period.max(1)).saturating_add(1),
            Comes::Once => 1,
            Comes::Unsaid => u64::MAX,
        }
    }

    /// The least time between two events, if it is known.
    pub(crate) fn apart(self) -> Option<u64> {
        match self {
            Comes::Apart(period) => Some(period),
            Comes::Once | Comes::Unsaid => None,
        }
    }
}

/// The rate of an arrival: the path of its leaf, and the least time between two events in picoseconds.
#[derive(Clone, Copy)]
pub(crate) struct Rate<'a> {
    pub path: &'a str,
    pub period: u64,
}

// A name and the least time between two events, as in `TANK.LEVEL=10/s`.
fn read_rate(text: &str) -> Option<(&str, u64)> {
    let (name, rate) = text.split_once('=')?;
    let (count, unit) = rate.split_once('/')?;
    let size = match unit {
        "s" => SECOND,
        "min" => SECOND * 60,
        "h" => SECOND * 3600,
        _ => return None,
    };
    match size.checked_div(read_wide_number(count)?) {
        Some(0) | None => None,
        Some(period) => Some((name, period)),
    }
}

// Whether the arrival of this leaf has a rate already.
fn is_rated(rates: &[Rate<'_>], path: &str) -> bool {
    for rate in rates {
        if rate.path == path {
            return true;
        }
    }
    false
}

// Adds the rate that a part of the words says.
fn add_rate<'a, 'w>(
    flat: &'a Flat,
    part: &'w str,
    rates: &mut Vec<Rate<'a>>,
) -> Result<(), Halt<'w>> {
    let Some((name, period)) = read_rate(part) else {
        return Err(Halt::Rate(part));
    };
    let leaf = match leaf_of(flat, name) {
        Ok((_, leaf)) => leaf,
        Err(fault) => return Err(Halt::Way(fault)),
    };
    if let Err(fault) = arrival_of(leaf, name) {
        return Err(Halt::Way(fault));
    }
    let path = leaf.path.as_str();
    if is_rated(rates, path) {
        return Err(Halt::RateTwice(name));
    }
    match rates.push(Rate { path, period }) {
        Ok(()) => Ok(()),
        Err(_) => Err(Halt::Memory),
    }
}

/// Adds the rates that the words say, parted by commas.
pub(crate) fn add_rates<'a, 'w>(
    flat: &'a Flat,
    text: &'w str,
    rates: &mut Vec<Rate<'a>>,
) -> Result<(), Halt<'w>> {
    for part in text.split(',') {
        add_rate(flat, part, rates)?;
    }
    Ok(())
}

// The least time between two expiries of a timer whose DT is a constant: it may expire a millisecond early, since the clock has whole milliseconds.
fn timer_period(leaf: &Leaf) -> Option<u64> {
    for input in &leaf.inputs {
        if input.name.as_str() == "DT" {
            return match &input.source {
                Source::Number(time) => {
                    let whole = u64::try_from(*time).unwrap_or(0).saturating_sub(1);
                    if whole == 0 {
                        None
                    } else {
                        Some(whole.saturating_mul(MILLISECOND))
                    }
                }
                Source::Output(_, _) | Source::Zeros(_, _) => None,
            };
        }
    }
    None
}

/// How often events come at the arrival of a leaf, by these rates and by its own DT.
pub(crate) fn comes_of(rates: &[Rate<'_>], leaf: &Leaf) -> Comes {
    for rate in rates {
        if rate.path == leaf.path.as_str() {
            return Comes::Apart(rate.period);
        }
    }
    match &leaf.body {
        Body::Served(Service::Restart) => Comes::Once,
        Body::Served(Service::Delay) | Body::Served(Service::Cycle) => match timer_period(leaf) {
            Some(period) => Comes::Apart(period),
            None => Comes::Unsaid,
        },
        _ => Comes::Unsaid,
    }
}

//! What is printed.

use crate::counted::{Asked, Measures, Timed, measures_of, timed_of};
use crate::halt::Halt;
use crate::list::{PriceList, read_list};
use crate::rates::add_rates;
use crate::report::{report_object, resource_object};
use crate::table::{put_meaning, put_table};
use crate::way::{Found, put_way, way_of};
use fb_verified::Verified;
use fb_work::NoWork;
use fbr_files::{FileText, Sources};
use fbr_objects::List;
use fbr_places::Writing;
use fbr_words::Time;
use hex::encode;
use sha2::{Digest, Sha256};
use std::alloc::{AllocError, Global};

/// The file of the program that runs.
const PROGRAM: &str = "/proc/self/exe";

// Whether these are the digits of a file's SHA-256.
fn is_sum(alloc: Global, bytes: &[u8], digits: &str) -> Result<bool, AllocError> {
    let digest = Sha256::digest(bytes);
    let own = encode(alloc, digest.as_slice())?;
    Ok(own.as_str() == digits)
}

// Whether the program that runs has these digits.
fn is_own<S: Sources>(alloc: Global, files: &S, digits: &str) -> Result<bool, AllocError> {
    match files.read(alloc, PROGRAM) {
        Ok(bytes) => {
            let is_own = is_sum(alloc, bytes.as_slice(), digits);
            drop(bytes);
            is_own
        }
        Err(_) => Ok(false),
    }
}

// The list of prices in a file.
fn list_in<'b>(alloc: Global, file: &'b FileText<'b>) -> Result<PriceList<'b>, Halt<'b>> {
    match file.text() {
        Ok(text) => match read_list(alloc, text) {
            Ok(list) => Ok(list),
            Err(fault) => Err(Halt::List(fault)),
        },
        Err(fault) => Err(Halt::File(fault)),
    }
}

// Adds what the arrivals of all resources take.
fn add_timed<'a>(
    asked: Asked<'a, '_>,
    measures: &Measures,
    all: &mut Vec<Timed<'a>>,
) -> Result<(), AllocError> {
    for device in &asked.verified.flat().devices {
        for resource in &device.resources {
            all.push(timed_of(asked, measures, device, resource)?)?;
        }
    }
    Ok(())
}

// Adds what the arrivals of all resources take, which is counted first.
fn add_counted<'a, 'w>(asked: Asked<'a, '_>, all: &mut Vec<Timed<'a>>) -> Result<(), Halt<'w>> {
    match measures_of(asked.alloc, asked.verified, asked.list) {
        Ok(measures) => {
            let added = add_timed(asked, &measures, all);
            drop(measures);
            match added {
                Ok(()) => Ok(()),
                Err(AllocError) => Err(Halt::Memory),
            }
        }
        Err(NoWork::OutOfMemory) => Err(Halt::Memory),
        Err(NoWork::TooMuch) => Err(Halt::TooMuch),
    }
}

// Whether a row is of the event with which a way begins.
fn is_first(path: &str, first: &str, event: &str) -> bool {
    match path.strip_prefix(first) {
        Some(rest) => rest.strip_prefix('.') == Some(event),
        None => false,
    }
}

// In how many turns all has ended that the event causes with which a way begins.
fn turns_of(all: &[Timed<'_>], found: &Found<'_>) -> u64 {
    let Some(first) = found.leaves.first() else {
        return 0;
    };
    for timed in all {
        for row in &timed.rows {
            if is_first(row.path.as_str(), first.path.as_str(), found.event) {
                return row.most.dispatches.end;
            }
        }
    }
    0
}

// The page for people.
fn page(
    alloc: Global,
    all: &[Timed<'_>],
    list: Option<&PriceList<'_>>,
    way: Option<&Found<'_>>,
) -> Result<String, AllocError> {
    let mut writing = Writing::new(alloc);
    for timed in all {
        put_table(timed, &mut writing);
    }
    if let Some(found) = way {
        put_way(found, turns_of(all, found), &mut writing);
    }
    put_meaning(list, &mut writing);
    writing.text()
}

// The report for programs.
fn report(
    alloc: Global,
    all: &[Timed<'_>],
    list: Option<&PriceList<'_>>,
    way: Option<&Found<'_>>,
) -> Result<String, AllocError> {
    let mut resources = List::new(alloc);
    for timed in all {
        resources.object(resource_object(alloc, timed));
    }
    report_object(alloc, resources, list, way).end()
}

// What is printed of a system, with a way or without.
fn printed<'w>(
    asked: Asked<'_, '_>,
    way: Option<&Found<'_>>,
    is_json: bool,
) -> Result<String, Halt<'w>> {
    let alloc = asked.alloc;
    let mut all = Vec::new(alloc);
    let text = match add_counted(asked, &mut all) {
        Ok(()) => {
            let text = if is_json {
                report(alloc, &all, asked.list, way)
            } else {
                page(alloc, &all, asked.list, way)
            };
            match text {
                Ok(text) => Ok(text),
                Err(AllocError) => Err(Halt::Memory),
            }
        }
        Err(halt) => Err(halt),
    };
    drop(all);
    text
}

// What is printed of a system, with the way that is asked for.
fn with_way<'w>(asked: Asked<'_, '_>, request: Time<'w>) -> Result<String, Halt<'w>> {
    let Some(way) = request.way else {
        return printed(asked, None, request.is_json);
    };
    match way_of(asked.alloc, asked.verified.flat(), way) {
        Ok(found) => {
            let text = printed(asked, Some(&found), request.is_json);
            drop(found);
            text
        }
        Err(fault) => Err(Halt::Way(fault)),
    }
}

// What is printed of a system, with a list of prices, and with the rates that are given.
fn with_rates<'x, 'w>(
    alloc: Global,
    verified: &'x Verified,
    list: &'x PriceList<'_>,
    rates: &'w str,
    request: Time<'w>,
) -> Result<String, Halt<'w>> {
    let mut all = Vec::new(alloc);
    let text = match add_rates(verified.flat(), rates, &mut all) {
        Ok(()) => {
            let asked = Asked {
                alloc,
                verified,
                list: Some(list),
                rates: Some(all.as_slice()),
            };
            with_way(asked, request)
        }
        Err(halt) => Err(halt),
    };
    drop(all);
    text
}

// What is printed of a system, with a list of prices or without.
fn told<'x, 'w>(
    alloc: Global,
    verified: &'x Verified,
    list: Option<&'x PriceList<'_>>,
    request: Time<'w>,
) -> Result<String, Halt<'w>> {
    match (request.rates, list) {
        (Some(rates), Some(list)) => with_rates(alloc, verified, list, rates, request),
        (Some(_), None) => Err(Halt::Unpriced),
        (None, _) => {
            let asked = Asked {
                alloc,
                verified,
                list,
                rates: None,
            };
            with_way(asked, request)
        }
    }
}

// What is printed of a system at prices, if these are of the program that runs.
fn told_at<'b, S: Sources>(
    alloc: Global,
    files: &S,
    verified: &Verified,
    list: &PriceList<'b>,
    request: Time<'b>,
) -> Result<String, Halt<'b>> {
    if is_own(alloc, files, list.program)? {
        told(alloc, verified, Some(list), request)
    } else {
        Err(Halt::Other)
    }
}

/// What `fbr time` prints of a verified system: a page for people, or with `--json` a report for programs; `prices` is the file that `--calibration` names.
pub fn text_of<'b, S: Sources>(
    alloc: Global,
    files: &S,
    verified: &Verified,
    prices: Option<&'b FileText<'b>>,
    request: Time<'b>,
) -> Result<String, Halt<'b>> {
    let Some(file) = prices else {
        return told(alloc, verified, None, request);
    };
    let list = list_in(alloc, file)?;
    let text = told_at(alloc, files, verified, &list, request);
    drop(list);
    text
}

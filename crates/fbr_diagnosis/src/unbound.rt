//! Diagnoses of systems without a certificate.

use crate::diagnosis::{Asked, Diagnosis, Finding};
use crate::inner::declared_fault;
use crate::meaning::{found_limit, meaning_of};
use crate::reading::Reading;
use fb_faults::{NoBound, Place};
use fb_find_ranges::tables;
use fb_find_search::search;
use fb_flat::{Flat, Leaf};
use fb_ranges::Ranges;
use fb_types::Typed;
use fbr_faults::Fault;
use fbr_leaves::{System, block_in};
use fbr_needs::{Grounds, flood_of, steps_of};
use fbr_places::{Declared, Located, declared_at};
use std::alloc::{AllocError, Global};

// Whether a leaf has the place of a path.
fn has(leaf: &Leaf, path: &str) -> bool {
    match path.rsplit_once('.') {
        Some((front, _)) => leaf.path.as_str() == front,
        None => false,
    }
}

// The statement at fault of what is declared at a leaf, under the ranges that are found there.
fn leaf_fault(
    alloc: Global,
    leaf: &Leaf,
    rows: Option<&Ranges>,
    declared: Declared<'_>,
) -> Result<Option<Fault>, AllocError> {
    match (block_in(leaf), rows) {
        (Some(block), Some(rows)) => declared_fault(alloc, declared, block, rows),
        _ => Ok(None),
    }
}

// The statement at fault of the algorithm or the state of a path, under the ranges that are found of its leaf.
fn found_fault(
    alloc: Global,
    flat: &Flat,
    declared: Declared<'_>,
    path: &str,
) -> Result<Option<Fault>, AllocError> {
    let tables = tables(alloc, flat)?;
    let mut index: usize = 0;
    for device in &flat.devices {
        for resource in &device.resources {
            for leaf in &resource.leaves {
                if has(leaf, path) {
                    return leaf_fault(alloc, leaf, tables.get(index), declared);
                }
                index = index.saturating_add(1);
            }
        }
    }
    Ok(None)
}

// What is at fault with a range: the statement.
fn range_finding<'a>(
    alloc: Global,
    flat: Option<&Flat>,
    declared: Option<Declared<'_>>,
    path: &str,
) -> Result<Finding<'a>, AllocError> {
    let (Some(flat), Some(declared)) = (flat, declared) else {
        return Ok(Finding::Nothing);
    };
    match found_fault(alloc, flat, declared, path)? {
        Some(fault) => Ok(Finding::Wrong(fault)),
        None => Ok(Finding::Nothing),
    }
}

// Whether there are other ranges under which all is clear, where the finder is asked: nothing where it is refused for something else.
fn narrower(asked: Asked<'_>, typed: &Typed) -> Result<Option<bool>, AllocError> {
    if !asked.is_searched {
        return Ok(None);
    }
    match search(asked.alloc, typed, None) {
        Ok(certificate) => {
            certificate.let_go();
            Ok(Some(true))
        }
        Err(NoBound::NoRange(_)) => Ok(Some(false)),
        Err(NoBound::OutOfMemory) => Err(AllocError),
        Err(_) => Ok(None),
    }
}

// The diagnosis of why there is no certificate: where that stands, and what was found.
fn made<'a>(
    reason: &NoBound,
    place: Option<Located<'a>>,
    finding: Finding<'a>,
    is_narrower: Option<bool>,
    reading: &'a Reading,
) -> Diagnosis<'a> {
    let code = reason.code();
    let meaning = match reason {
        NoBound::Limit(_) => Some(found_limit()),
        _ => meaning_of(code),
    };
    Diagnosis {
        code,
        place,
        finding,
        counts: None,
        meaning,
        is_narrower,
        reading,
    }
}

// The diagnosis of a closed walk: it stands where its first place leads to the next.
fn diagnose_walk<'a>(
    asked: Asked<'a>,
    reason: &NoBound,
    places: &'a [Place],
    system: &'a System,
    reading: &'a Reading,
) -> Result<Diagnosis<'a>, AllocError> {
    let Some(flat) = &system.flat else {
        return Ok(made(reason, None, Finding::Nothing, None, reading));
    };
    let grounds = Grounds {
        app: asked.app,
        file: system.file(),
        flat,
    };
    let steps = steps_of(asked.alloc, grounds, places)?;
    let mut place = None;
    for step in &steps {
        if place.is_none() {
            place = step.at;
        }
    }
    Ok(made(reason, place, Finding::Walk(steps), None, reading))
}

// The diagnosis of a range that is not clear.
fn diagnose_range<'a>(
    asked: Asked<'a>,
    reason: &NoBound,
    path: &str,
    system: &'a System,
    reading: &'a Reading,
) -> Result<Diagnosis<'a>, AllocError> {
    let declared = match system.flat {
        Some(_) => declared_at(system.file(), path),
        None => None,
    };
    let finding = range_finding(asked.alloc, system.flat.as_ref(), declared, path)?;
    let at = match (&finding, declared) {
        (Finding::Wrong(fault), _) => Some(fault.at),
        (_, Some(declared)) => Some(declared.at()),
        (_, None) => None,
    };
    let place = match at {
        Some(at) => asked.app.at_byte(at),
        None => None,
    };
    let is_narrower = narrower(asked, &system.typed)?;
    Ok(made(reason, place, finding, is_narrower, reading))
}

// What is above a limit in a resource: the arrival that becomes too many events, if there is one.
fn limit_finding<'a>(
    alloc: Global,
    system: &System,
    path: &str,
) -> Result<Finding<'a>, AllocError> {
    let Some(flat) = &system.flat else {
        return Ok(Finding::Nothing);
    };
    match flood_of(alloc, flat, path)? {
        Some(flood) => Ok(Finding::Flood(flood)),
        None => Ok(Finding::Nothing),
    }
}

// The path that a limit is told at: of the arrival of a flood, or else of the resource.
fn limit_path<'a>(finding: &'a Finding<'_>, path: &'a str) -> &'a str {
    match finding {
        Finding::Flood(flood) => match flood.chain.first() {
            Some(link) => link.path.as_str(),
            None => path,
        },
        _ => path,
    }
}

// The diagnosis of a resource that is above a limit.
fn diagnose_limit<'a>(
    asked: Asked<'a>,
    reason: &NoBound,
    path: &str,
    system: &'a System,
    reading: &'a Reading,
) -> Result<Diagnosis<'a>, AllocError> {
    let finding = limit_finding(asked.alloc, system, path)?;
    let place = match declared_at(system.file(), limit_path(&finding, path)) {
        Some(declared) => asked.app.at_byte(declared.at()),
        None => None,
    };
    Ok(made(reason, place, finding, None, reading))
}

/// Why there is no certificate of a system that was read, where that stands in the application's text, and what to do.
pub fn diagnose_unbound<'a>(
    asked: Asked<'a>,
    reason: &'a NoBound,
    reading: &'a Reading,
) -> Result<Diagnosis<'a>, AllocError> {
    let Some(system) = reading.system() else {
        return Ok(made(reason, None, Finding::Nothing, None, reading));
    };
    match reason {
        NoBound::Cycle(places) => diagnose_walk(asked, reason, places, system, reading),
        NoBound::NoRange(path) => diagnose_range(asked, reason, path.as_str(), system, reading),
        NoBound::Limit(path) => diagnose_limit(asked, reason, path.as_str(), system, reading),
        NoBound::OutOfMemory => Ok(made(reason, None, Finding::Nothing, None, reading)),
    }
}

//! Diagnoses of what the checker refuses.

ghost use Rattle.std.specs.Prelude.{◌≤◌, IfSome};

use crate::diagnosis::{Asked, Diagnosis, Finding};
use crate::inner::declared_fault;
use crate::meaning::meaning_of;
use crate::place::{byte_in, channel_line, line_in, path_in, row_line};
use crate::reading::Reading;
use crate::text::{is_application, text_finding};
use fb_cert::Certificate;
use fb_check_ranges::block_rows;
use fb_faults::{NoBound, Refusal};
use fb_find::find;
use fb_flat::Flat;
use fb_types::Typed;
use fbr_faults::Fault;
use fbr_leaves::{System, block_in, place_at};
use fbr_needs::{
    Counts, Missing, Sum, channel_sum, charge_sum, counts_of, far_sum, missing_channel,
    missing_row, queue_of, range_link, range_start, weight_sum,
};
use fbr_places::{Declared, Located, declared_at};
use std::alloc::{AllocError, Global};

// A system whose certificate is refused, with its leaves.
#[derive(Clone, Copy)]
struct Refused<'a> {
    asked: Asked<'a>,
    refusal: &'a Refusal,
    typed: &'a Typed,
    flat: &'a Flat,
    certificate: &'a Certificate,
    declared: Option<Declared<'a>>,
}

// The statement at fault of an algorithm, or of guards that leave a state.
fn statement_of(refused: Refused<'_>, path: &str) -> Result<Option<Fault>, AllocError> {
    let alloc = refused.asked.alloc;
    let (Some(declared), Some((leaf, _))) = (refused.declared, place_at(refused.flat, path)) else {
        return Ok(None);
    };
    let Some(block) = block_in(leaf) else {
        return Ok(None);
    };
    let rows = block_rows(alloc, refused.certificate, leaf.path.as_str(), block)?;
    declared_fault(alloc, declared, block, &rows)
}

// The certificate that is found of a system, for as many deliveries as a row REPEATS says; nothing where there is none.
fn found_for(
    alloc: Global,
    typed: &Typed,
    repeats: Option<u8>,
) -> Result<Option<Certificate>, AllocError>
    requires { IfSome repeats (λ r. 1 ≤ r) }
{
    match find(alloc, typed, repeats) {
        Ok(certificate) => Ok(Some(certificate)),
        Err(NoBound::OutOfMemory) => Err(AllocError),
        Err(_) => Ok(None),
    }
}

// The same, where the finder is asked.
fn found_of(refused: Refused<'_>) -> Result<Option<Certificate>, AllocError> {
    if !refused.asked.is_searched {
        return Ok(None);
    }
    match refused.certificate.repeats() {
        Some(0) => found_for(refused.asked.alloc, refused.typed, None),
        repeats => found_for(refused.asked.alloc, refused.typed, repeats),
    }
}

// The row that is missing, with the numbers that another certificate has there.
fn missing_of<'a>(refused: Refused<'a>, found: Option<&Certificate>) -> Option<Missing<'a>> {
    match refused.refusal {
        Refusal::MissingRow(path) => {
            missing_row(refused.declared, refused.certificate, found, path.as_str())
        }
        Refusal::MissingChannel(number) => Some(missing_channel(found, *number)),
        _ => None,
    }
}

// The row that is missing.
fn missing<'a>(refused: Refused<'a>) -> Result<Finding<'a>, AllocError> {
    let missing = match found_of(refused)? {
        Some(found) => {
            let missing = missing_of(refused, Some(&found));
            found.let_go();
            missing
        }
        None => missing_of(refused, None),
    };
    match missing {
        Some(missing) => Ok(Finding::Missing(missing)),
        None => Ok(Finding::Nothing),
    }
}

// A sum, if there is one.
fn sum_finding(sum: Option<Sum<'_>>) -> Finding<'_> {
    match sum {
        Some(sum) => Finding::Sum(sum),
        None => Finding::Nothing,
    }
}

// What the row of a variable says beside what the variable holds.
fn range_finding<'a>(refused: Refused<'a>) -> Result<Finding<'a>, AllocError> {
    let alloc = refused.asked.alloc;
    let (flat, certificate) = (refused.flat, refused.certificate);
    match refused.refusal {
        Refusal::RangeStart(path) => {
            match range_start(alloc, flat, certificate, path.as_str())? {
                Some(start) => Ok(Finding::Start(start)),
                None => Ok(Finding::Nothing),
            }
        }
        Refusal::RangeLink(path) => match range_link(alloc, flat, certificate, path.as_str())? {
            Some(link) => Ok(Finding::Link(link)),
            None => Ok(Finding::Nothing),
        },
        _ => Ok(Finding::Nothing),
    }
}

// What a row says and what it needs.
fn finding_of<'a>(refused: Refused<'a>) -> Result<Finding<'a>, AllocError> {
    let alloc = refused.asked.alloc;
    let (flat, certificate) = (refused.flat, refused.certificate);
    match refused.refusal {
        Refusal::MissingRow(_) | Refusal::MissingChannel(_) => missing(refused),
        Refusal::RangeStart(_) | Refusal::RangeLink(_) => range_finding(refused),
        Refusal::Charge(path) => {
            Ok(sum_finding(charge_sum(alloc, flat, certificate, path.as_str())?))
        }
        Refusal::Weight(path) => {
            Ok(sum_finding(weight_sum(alloc, flat, certificate, path.as_str())?))
        }
        Refusal::Far(path) => Ok(sum_finding(far_sum(alloc, flat, certificate, path.as_str())?)),
        Refusal::Channel(number) => {
            Ok(Finding::Sum(channel_sum(alloc, flat, certificate, *number)?))
        }
        Refusal::Depth(path) => match queue_of(alloc, flat, certificate, path.as_str())? {
            Some(queue) => Ok(Finding::Queue(queue)),
            None => Ok(Finding::Nothing),
        },
        Refusal::RangeKept(path) | Refusal::IndexOrDivisor(path) => {
            match statement_of(refused, path.as_str())? {
                Some(fault) => Ok(Finding::Wrong(fault)),
                None => Ok(Finding::Nothing),
            }
        }
        _ => Ok(Finding::Nothing),
    }
}

// Where the row stands that a certificate has and may not have; or else the statement at fault, or what is declared at the path of the row.
fn place_of<'a>(refused: Refused<'a>, finding: &Finding<'_>) -> Option<Located<'a>> {
    let asked = refused.asked;
    match refused.refusal {
        Refusal::UnknownRow(path) => {
            let repeats = refused.certificate.repeats().is_some();
            let line = row_line(asked.cert.text, refused.declared, repeats, path.as_str())?;
            asked.cert.at_line(line)
        }
        Refusal::UnknownChannel(number) => {
            asked.cert.at_line(channel_line(asked.cert.text, *number)?)
        }
        _ => match finding {
            Finding::Wrong(fault) => asked.app.at_byte(fault.at),
            _ => asked.app.at_byte(refused.declared?.at()),
        },
    }
}

// How many rows are missing and too many, where a row is.
fn counts_in(refused: Refused<'_>) -> Result<Option<Counts>, AllocError> {
    match refused.refusal {
        Refusal::MissingRow(_) | Refusal::UnknownRow(_) => {
            counts_of(refused.asked.alloc, refused.flat, refused.certificate)
        }
        _ => Ok(None),
    }
}

// The diagnosis of a refusal: where it stands, and what was found.
fn made<'a>(
    refusal: &Refusal,
    place: Option<Located<'a>>,
    finding: Finding<'a>,
    counts: Option<Counts>,
    reading: &'a Reading,
) -> Diagnosis<'a> {
    let code = refusal.code();
    Diagnosis {
        code,
        place,
        finding,
        counts,
        meaning: meaning_of(code),
        is_narrower: None,
        reading,
    }
}

// The diagnosis of a refusal of which no more is known than what it says.
fn bare<'a>(refusal: &Refusal, reading: &'a Reading) -> Diagnosis<'a> {
    made(refusal, None, Finding::Nothing, None, reading)
}

// The diagnosis of a system whose certificate is refused.
fn diagnose_refused<'a>(
    refused: Refused<'a>,
    reading: &'a Reading,
) -> Result<Diagnosis<'a>, AllocError> {
    let counts = counts_in(refused)?;
    let finding = finding_of(refused)?;
    let place = place_of(refused, &finding);
    Ok(made(refused.refusal, place, finding, counts, reading))
}

// The same of a system, where it has leaves and a certificate.
fn diagnose_system<'a>(
    asked: Asked<'a>,
    refusal: &'a Refusal,
    system: &'a System,
    reading: &'a Reading,
) -> Result<Diagnosis<'a>, AllocError> {
    let (Some(flat), Some(certificate)) = (&system.flat, reading.certificate()) else {
        return Ok(bare(refusal, reading));
    };
    let declared = match path_in(refusal) {
        Some(path) => declared_at(system.file(), path),
        None => None,
    };
    let refused = Refused {
        asked,
        refusal,
        typed: &system.typed,
        flat,
        certificate,
        declared,
    };
    diagnose_refused(refused, reading)
}

// The diagnosis of the text of an application.
fn diagnose_text<'a>(
    asked: Asked<'a>,
    refusal: &Refusal,
    byte: usize,
    reading: &'a Reading,
) -> Result<Diagnosis<'a>, AllocError> {
    let (place, finding) = text_finding(asked, refusal, reading, byte)?;
    Ok(made(refusal, place, finding, None, reading))
}

// The diagnosis of a line of a certificate.
fn diagnose_line<'a>(
    asked: Asked<'a>,
    refusal: &Refusal,
    line: usize,
    reading: &'a Reading,
) -> Diagnosis<'a> {
    let finding = if is_application(asked.cert.text) {
        Finding::Swapped
    } else {
        Finding::Nothing
    };
    made(refusal, asked.cert.at_line(line), finding, None, reading)
}

/// Where a refusal of the checker stands in one of two texts, what is needed and what is there, and what to do, by what was read of them for it.
pub fn diagnose<'a>(
    asked: Asked<'a>,
    refusal: &'a Refusal,
    reading: &'a Reading,
) -> Result<Diagnosis<'a>, AllocError> {
    if let Some(byte) = byte_in(refusal) {
        return diagnose_text(asked, refusal, byte, reading);
    }
    if let Some(line) = line_in(refusal) {
        return Ok(diagnose_line(asked, refusal, line, reading));
    }
    match reading.system() {
        Some(system) => diagnose_system(asked, refusal, system, reading),
        None => Ok(bare(refusal, reading)),
    }
}

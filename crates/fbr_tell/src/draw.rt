//! Draws systems. What is written is tested, and no contract says it. A graph is written into memory first: it is whole, or memory ran out and 9 is told
//! instead.

ghost use Rattle.std.specs.Prelude.{◌≤◌, IfSome};

use crate::chart::tell_charts;
use crate::given::{Given, NamedFile};
use crate::line::{hand_out, hint};
use fb_cert::{Certificate, parse_cert};
use fb_faults::{CertFault, NoBound, Refusal};
use fb_find::find;
use fb_find_length::rows_are_long;
use fb_types::Typed;
use fb_verdict::check_text;
use fbr_diagnosis::{Asked, Reading, diagnose_unbound};
use fbr_draw::{Picture, draw};
use fbr_draw_chart::draw_chart;
use fbr_files::Fault;
use fbr_leaves::{Resolved, System, system_in};
use fbr_needs::Step;
use fbr_places::Writing;
use std::alloc::{AllocError, Global};
use std::fmt::Display;
use std::io::Write;

/// What is drawn of a system: the weights of the certificate in a second file, or else of the one that is found, or the walk for which there is none; whether
/// composites are boxes; and the block type whose chart is drawn, where it is one.
#[derive(Clone, Copy)]
pub struct Drawing<'a> {
    pub app: NamedFile<'a>,
    pub cert: Option<NamedFile<'a>>,
    pub repeats: Option<u8>,
    pub boxes: bool,
    pub chart: Option<&'a str>,
}

// A system that is drawn, and how.
#[derive(Clone, Copy)]
struct Drawn<'a> {
    asked: Asked<'a>,
    system: &'a System,
    drawing: Drawing<'a>,
}

// Writes the picture of a system or of a chart in it, and says whether there is what is to be drawn.
fn write_picture(
    drawn: Drawn<'_>,
    picture: &Picture<'_>,
    writing: &mut Writing,
) -> Result<bool, AllocError> {
    let alloc = drawn.asked.alloc;
    match (drawn.drawing.chart, &drawn.system.flat) {
        (Some(name), _) => draw_chart(alloc, picture, name, writing),
        (None, Some(flat)) => {
            draw(alloc, flat, picture, writing)?;
            Ok(true)
        }
        // Its leaves were found before.
        (None, None) => Err(AllocError),
    }
}

// The page of a picture; nothing where the text has no such chart, and people are told which there are.
fn page_of<E: Write>(
    drawn: Drawn<'_>,
    certificate: Option<&Certificate>,
    refused: Option<&str>,
    walk: &[Step<'_>],
    errors: &mut E,
) -> Result<Option<Vec<u8>>, AllocError> {
    let picture = Picture {
        app: drawn.asked.app,
        file: drawn.system.file(),
        certificate,
        refused,
        walk,
        boxes: drawn.drawing.boxes,
    };
    let mut writing = Writing::new(drawn.asked.alloc);
    if write_picture(drawn, &picture, &mut writing)? {
        return Ok(Some(writing.end()?));
    }
    let mut told = Writing::new(drawn.asked.alloc);
    tell_charts(picture.app.name, picture.file, &mut told);
    hand_out(told, errors);
    Ok(None)
}

// A page that is drawn: where there is no such chart the words are at fault.
fn unless_none<'a>(drawn: Result<Option<Vec<u8>>, AllocError>) -> Result<Vec<u8>, Fault<'a>> {
    match drawn {
        Ok(Some(page)) => Ok(page),
        Ok(None) => Err(Fault::Usage),
        Err(_) => Err(Fault::Memory),
    }
}

// The certificate in a file.
fn named_certificate<'a>(alloc: Global, file: NamedFile<'a>) -> Result<Certificate, Fault<'a>> {
    match file.text() {
        Ok(cert) => match parse_cert(alloc, cert.text) {
            Ok(certificate) => Ok(certificate),
            Err(CertFault::OutOfMemory) => Err(Fault::Memory),
            Err(fault) => Err(Fault::Refused(Refusal::from(fault))),
        },
        Err(fault) => Err(fault),
    }
}

// That the certificate of a system is too long.
fn too_long<'a>() -> Fault<'a> {
    Fault::Refused(Refusal::Certificate(CertFault::TooLong))
}

// The certificate that is found of a system, unless its rows alone are too long.
fn found_certificate<'a>(
    alloc: Global,
    typed: &Typed,
    repeats: Option<u8>,
) -> Result<Certificate, Fault<'a>>
    requires { IfSome repeats (λ r. 1 ≤ r) }
{
    if rows_are_long(typed, repeats) {
        return Err(too_long());
    }
    match find(alloc, typed, repeats) {
        Ok(certificate) => Ok(certificate),
        Err(NoBound::OutOfMemory) => Err(Fault::Memory),
        Err(reason) => Err(Fault::Unbound(reason)),
    }
}

// A refusal as its line says it.
fn line_of<D: Display>(alloc: Global, refusal: &D) -> Result<String, AllocError> {
    let mut writing = Writing::new(alloc);
    writing.show(refusal);
    writing.text()
}

// Tells people of a picture whose numbers are no bounds, or which has none, and for which refusal.
fn tell_refused<E: Write>(
    alloc: Global,
    drawing: Drawing<'_>,
    so: &str,
    line: &str,
    errors: &mut E,
) {
    let mut told = Writing::new(alloc);
    told.put("fbr: ");
    told.put(so);
    told.put(line);
    told.put("; 'fbr explain ");
    told.put(drawing.app.name);
    if let Some(cert) = drawing.cert {
        told.put(" ");
        told.put(cert.name);
    }
    drawing.app.put_with(&mut told);
    if let Some(repeats) = drawing.repeats {
        told.put(" --repeats ");
        told.show(&repeats);
    }
    told.put("' says more\n");
    hand_out(told, errors);
}

// The page of a system with the walk for which it has no certificate, or why else it has none.
fn draw_unbound<E: Write>(
    drawn: Drawn<'_>,
    reason: &NoBound,
    reading: &Reading,
    errors: &mut E,
) -> Result<Option<Vec<u8>>, AllocError> {
    let alloc = drawn.asked.alloc;
    let line = line_of(alloc, reason)?;
    let diagnosis = diagnose_unbound(drawn.asked, reason, reading)?;
    let walk = diagnosis.walk();
    let refused = if walk.is_empty() {
        Some(line.as_str())
    } else {
        None
    };
    let page = page_of(drawn, None, refused, walk, errors)?;
    if page.is_some() {
        let so = "drawn without numbers, since there is no certificate: ";
        tell_refused(alloc, drawn.drawing, so, line.as_str(), errors);
    }
    Ok(page)
}

// The page of a chart in a system whose certificate is too long: without numbers.
fn draw_long<E: Write>(drawn: Drawn<'_>, errors: &mut E) -> Result<Option<Vec<u8>>, AllocError> {
    let line = line_of(drawn.asked.alloc, &too_long())?;
    let page = page_of(drawn, None, Some(line.as_str()), &[], errors)?;
    if page.is_some() {
        let so = "drawn without numbers, since the certificate is too long: ";
        tell_refused(drawn.asked.alloc, drawn.drawing, so, line.as_str(), errors);
    }
    Ok(page)
}

// Why the certificate that is drawn is not accepted, as its line says it, if it is not.
fn refused_line(drawn: Drawn<'_>) -> Result<Option<String>, AllocError> {
    let Some(cert) = drawn.drawing.cert else {
        return Ok(None);
    };
    let Some(cert) = cert.named() else {
        return Ok(None);
    };
    let alloc = drawn.asked.alloc;
    match check_text(alloc, drawn.asked.app.text, cert.text) {
        Ok(verified) => {
            verified.let_go();
            Ok(None)
        }
        Err(Refusal::OutOfMemory) => Err(AllocError),
        Err(refusal) => Ok(Some(line_of(alloc, &refusal)?)),
    }
}

// The page of a system with the numbers of a certificate.
fn draw_certificate<E: Write>(
    drawn: Drawn<'_>,
    certificate: &Certificate,
    errors: &mut E,
) -> Result<Option<Vec<u8>>, AllocError> {
    let Some(line) = refused_line(drawn)? else {
        return page_of(drawn, Some(certificate), None, &[], errors);
    };
    let page = page_of(drawn, Some(certificate), Some(line.as_str()), &[], errors)?;
    if page.is_some() {
        let so = "drawn with the numbers of a certificate that is not accepted: ";
        tell_refused(drawn.asked.alloc, drawn.drawing, so, line.as_str(), errors);
    }
    Ok(page)
}

// Whether a fault is that a certificate is too long.
fn is_too_long(fault: &Fault<'_>) -> bool {
    match fault {
        Fault::Refused(refusal) => match refusal {
            Refusal::Certificate(CertFault::TooLong) => true,
            _ => false,
        },
        _ => false,
    }
}

// The files of a drawing.
fn given_of<'a>(drawing: Drawing<'a>) -> Given<'a> {
    match drawing.cert {
        Some(cert) => Given::two(drawing.app, cert),
        None => Given::of(drawing.app),
    }
}

// The page of a system with what is known of its bounds.
fn draw_bounds<'a, E: Write>(
    drawn: Drawn<'_>,
    bounds: Result<Certificate, Fault<'a>>,
    reading: &Reading,
    errors: &mut E,
) -> Result<Vec<u8>, Fault<'a>> {
    match bounds {
        Ok(certificate) => {
            let page = draw_certificate(drawn, &certificate, errors);
            certificate.let_go();
            unless_none(page)
        }
        Err(Fault::Unbound(reason)) => {
            unless_none(draw_unbound(drawn, &reason, reading, errors))
        }
        Err(fault) => {
            if drawn.drawing.cert.is_none() && is_too_long(&fault) {
                return unless_none(draw_long(drawn, errors));
            }
            hint(drawn.asked.alloc, &fault, given_of(drawn.drawing), errors);
            Err(fault)
        }
    }
}

// The page of what was read.
fn draw_read<'a, E: Write>(
    asked: Asked<'a>,
    drawing: Drawing<'a>,
    reading: &Reading,
    errors: &mut E,
) -> Result<Vec<u8>, Fault<'a>>
    requires { IfSome drawing.repeats (λ r. 1 ≤ r) }
{
    let Some(system) = reading.system() else {
        return Err(Fault::Memory);
    };
    let bounds = match drawing.cert {
        Some(file) => named_certificate(asked.alloc, file),
        None => found_certificate(asked.alloc, &system.typed, drawing.repeats),
    };
    let drawn = Drawn {
        asked,
        system,
        drawing,
    };
    draw_bounds(drawn, bounds, reading, errors)
}

// Whether a picture of all blocks is wanted whose certificate, which none is given for, would be too long.
fn is_long(typed: &Typed, drawing: Drawing<'_>) -> bool {
    drawing.cert.is_none() && drawing.chart.is_none() && rows_are_long(typed, drawing.repeats)
}

// The page of a system.
fn draw_system<'a, E: Write>(
    asked: Asked<'a>,
    resolved: Resolved,
    drawing: Drawing<'a>,
    errors: &mut E,
) -> Result<Vec<u8>, Fault<'a>>
    requires { IfSome drawing.repeats (λ r. 1 ≤ r) }
{
    if is_long(&resolved.typed, drawing) {
        resolved.let_go();
        return told(asked.alloc, too_long(), drawing, errors);
    }
    match resolved.flattened(asked.alloc) {
        Ok(system) => {
            let reading = Reading::System(system, None);
            let drawn = draw_read(asked, drawing, &reading, errors);
            reading.let_go();
            drawn
        }
        Err(fault) => Err(Fault::Refused(Refusal::from(fault))),
    }
}

// Tells people what is at fault with an application, and hands it on.
fn told<'a, E: Write>(
    alloc: Global,
    fault: Fault<'a>,
    drawing: Drawing<'a>,
    errors: &mut E,
) -> Result<Vec<u8>, Fault<'a>> {
    hint(alloc, &fault, Given::of(drawing.app), errors);
    Err(fault)
}

/// The system of an application as a graph in DOT, with its bounds, or the chart of a block type; or the fault of a text, or of the words where there is no such type,
/// and people are told why on `errors`.
pub fn picture<'a, E: Write>(
    alloc: Global,
    drawing: Drawing<'a>,
    errors: &mut E,
) -> Result<Vec<u8>, Fault<'a>>
    requires { IfSome drawing.repeats (λ r. 1 ≤ r) }
{
    let app = match drawing.app.text() {
        Ok(app) => app,
        Err(fault) => return told(alloc, fault, drawing, errors),
    };
    let asked = Asked {
        alloc,
        app,
        cert: app,
        is_searched: false,
    };
    match system_in(alloc, app.text) {
        Ok(resolved) => draw_system(asked, resolved, drawing, errors),
        Err(Refusal::OutOfMemory) => Err(Fault::Memory),
        Err(refusal) => told(alloc, Fault::Refused(refusal), drawing, errors),
    }
}
